ghost use Rattle.std.specs.Prelude.{◌≡◌, ◌≤◌, length, IfOk};
ghost use Rattle.conversion_meaning.specs.Lattices.{IsKey, IsLatticeOf};
ghost use Rattle.conversion_meaning.specs.Examples.{set};
ghost use Rattle.lattice_tests.specs.ExampleUser.{four_rows, kyou_row};

use example_set::{ExampleSet, KYOU, NOUN, SUPPRESSED, TODAY};
use lattice::{build, value_of};
use mz_base::{Lattice, MOST_KEY, NoMemory, NoUserWords, Text, UserRow, UserWords};
use std::alloc::Global;
use std::test::Fail;

static STRONG: [char; 1] = ['強'];

static MAD: [char; 1] = ['狂'];

static LORD: [char; 1] = ['卿'];

static VERB: [char; 2] = ['動', '詞'];

// A user with four rows of one reading: きょう 強 名詞, きょう 今日 抑制単語, きょう 狂 動詞, きょう 卿 名詞. The set
// has no 動詞.
#[derive(Drop)]
struct FourRows {
    rows: Vec<UserRow>,
    ghost are: { rows.items ≡ four_rows },
}

impl UserWords for FourRows {
    ghost use Rattle.std.proofs.Common.{lit≤};
    ghost use Rattle.lattice_tests.specs.ExampleUser.{four_rows};

    ghost rows = { λ _. four_rows };

    ghost few = { λ _. lit≤ tt };

    #[tactic(auto, unfolding(mz_base::specs::Data::places))]
    fn rows_of(&self, reading: &[char]) -> &[u32] {
        if reading == KYOU.as_slice() {
            &[0, 1, 2, 3]
        } else {
            &[]
        }
    }

    #[tactic(auto, unfolding(mz_base::specs::Users::longest_reading))]
    fn longest_reading(&self) -> usize {
        KYOU.len()
    }

    fn row(&self, place: u32) -> &UserRow {
        &self.rows[place as usize]
    }
}

fn four_rows(alloc: Global) -> Result<FourRows, NoMemory> {
    let mut rows = Vec::new(alloc);
    rows.push(kyou_row(alloc, &STRONG, &NOUN, 1)?)?;
    rows.push(kyou_row(alloc, &TODAY, &SUPPRESSED, 2)?)?;
    rows.push(kyou_row(alloc, &MAD, &VERB, 3)?)?;
    rows.push(kyou_row(alloc, &LORD, &NOUN, 4)?)?;
    Ok(FourRows { rows })
}

fn kyou_row(alloc: Global, word: &[char], part: &[char], line: u64) -> Result<UserRow, NoMemory>
    ensures { IfOk result (λ row. row ≡ kyou_row word.now part.now line) }
{
    Ok(UserRow {
        reading: Text::from_chars(alloc, &KYOU)?,
        word: Text::from_chars(alloc, word)?,
        pos: Text::from_chars(alloc, part)?,
        line,
    })
}

// A key, a bound or 0 for none, and the values of its entries by ordinal.
const ENTRIES: [(&str, u16, &str); 19] = [
    ("きょうは", 0, "き 今日 京 ょ う は 葉 は "),
    ("きょうは", 1, "き ょ う は 葉 は "),
    ("きょうは", 3, "き 今日 京 ょ う は 葉 は "),
    ("きょうは", 4, "き 今日 京 ょ う は 葉 は "),
    ("も", 0, "藻 喪 も "),
    ("0", 0, "0 "),
    ("1203", 0, "1 1203 2 0 3 "),
    ("1203", 2, "1 2 0 3 "),
    ("1２あ", 0, "1 1２ ２ あ "),
    ("アーあ", 0, "ア アー ー あ "),
    ("あアイウ", 0, "あ ア アイウ イ ウ "),
    ("アイウ", 2, "ア イ ウ "),
    ("アイウ", 3, "ア アイウ イ ウ "),
    ("アイも", 2, "ア アイ イ 藻 喪 も "),
    ("aＺ９", 0, "a aＺ Ｚ ９ "),
    ("abＣ", 1, "a b Ｃ "),
    // No run of one character, of hiragana or of other characters.
    ("a1ア", 0, "a 1 ア "),
    ("ああ", 0, "あ あ "),
    ("漢字", 0, "漢 字 "),
];

#[test]
fn gives_the_entries_of_a_key(rt: HostRuntime) -> Result<(), Fail> {
    let user = NoUserWords::new(rt.alloc());
    for (key, bound, wanted) in ENTRIES {
        let values = values_of(rt.alloc(), &user, key, bound)?;
        assert_eq!(rt; values.as_str(), wanted, "at {key} {bound}");
    }
    Ok(())
}

// The same for the user with four rows.
const USER_ENTRIES: [(&str, u16, &str); 4] = [
    ("きょうは", 0, "き 強 卿 今日 京 ょ う は 葉 は "),
    ("きょうは", 1, "き ょ う は 葉 は "),
    ("きょうは", 3, "き 強 卿 今日 京 ょ う は 葉 は "),
    ("ききょう", 0, "き き 強 卿 今日 京 ょ う "),
];

#[test]
fn gives_the_entries_of_a_users_rows(rt: HostRuntime) -> Result<(), Fail> {
    let user = four_rows(rt.alloc())?;
    for (key, bound, wanted) in USER_ENTRIES {
        let values = values_of(rt.alloc(), &user, key, bound)?;
        assert_eq!(rt; values.as_str(), wanted, "at {key} {bound}");
    }
    Ok(())
}

#[test]
fn a_users_rows_have_the_ids_of_the_set(rt: HostRuntime) -> Result<(), Fail> {
    let alloc = rt.alloc();
    let lattice = build(alloc, &ExampleSet, &four_rows(alloc)?, &KYOU, &[])?;
    // Begin, end, the left and the right id, and the cost.
    let mut numbers = String::new(alloc);
    for entry in lattice.entries.as_slice() {
        let ids = format!(in alloc; "{} {}", entry.lid, entry.rid)?;
        let line = format!(in alloc; "{} {} {ids} {}\n", entry.begin, entry.end, entry.cost)?;
        numbers.push_str(line.as_str())?;
    }
    assert_eq!(rt;
        numbers.as_str(),
        "0 1 1 1 5000\n0 3 1 1 100\n0 3 1 1 100\n0 3 1 1 300\n0 3 1 1 350\n1 2 1 1 5000\n2 3 1 1 5000\n"
    );
    Ok(())
}

fn values_of<U: UserWords>(
    alloc: Global,
    user: &U,
    text: &str,
    bound: u16,
) -> Result<String, NoMemory> {
    let key: Vec<char> = text.chars().collect(alloc)?;
    if key.is_empty() || key.len() > MOST_KEY || usize::from(bound) > key.len() {
        return Ok(String::new(alloc));
    }
    let lattice = lattice_of(alloc, user, key.as_slice(), bound)?;
    values_in(alloc, user, &lattice)
}

fn lattice_of<U: UserWords>(
    alloc: Global,
    user: &U,
    key: &[char],
    bound: u16,
) -> Result<Lattice, NoMemory>
    requires key { IsKey key.now }
    requires bound { bound ≤ length key.now }
    ensures { IfOk result (IsLatticeOf set (U.rows user.now)) }
{
    if bound == 0 {
        build(alloc, &ExampleSet, user, key, &[])
    } else {
        build(alloc, &ExampleSet, user, key, &[bound])
    }
}

fn values_in<U: UserWords>(alloc: Global, user: &U, lattice: &Lattice) -> Result<String, NoMemory>
    requires { IsLatticeOf set (U.rows user.now) lattice.now }
{
    let mut values = String::new(alloc);
    for ordinal in 0..lattice.entries.as_slice().len().min(100) as u32 {
        for letter in value_of(lattice, &ExampleSet, user, ordinal) {
            values.push(*letter)?;
        }
        values.push(' ')?;
    }
    Ok(values)
}
