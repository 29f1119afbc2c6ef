ghost use Rattle.std.specs.Prelude.{◌≡◌, ◌<◌, ◌≤◌, ◌&&◌, length, slice_range};
ghost use Rattle.std.specs.List.{list_all};
ghost use Rattle.conversion_meaning.specs.Entries.{class_at, ends_run, is_of, is_run, makes_runs, starts_run};
ghost use Rattle.lattice.specs.Runs.{may_begin_run};

use mz_base::{Class, class_of};

/// Whether a run that is an entry may begin here. Asked once for each begin, and not for each part.
pub(crate) fn may_begin_run(key: &[char], begin: u16) -> bool
    requires { begin < length key.now }
    ensures { result ≡ may_begin_run key.now begin }
{
    let class = class_of(key[usize::from(begin)]);
    makes_runs(class) && starts_run(class, key, begin)
}

/// Whether the part is a maximal run of two or more characters of one class whose runs are entries, where `may_run`
/// says whether one may begin here.
#[tactic(auto, unfolding(conversion_meaning::specs::Entries::is_run))]
pub(crate) fn is_run(key: &[char], may_run: bool, begin: u16, end: u16) -> bool
    requires forward { begin < end }
    requires inside { end ≤ length key.now }
    requires may_run { may_run ≡ may_begin_run key.now begin }
    ensures { result ≡ is_run key.now begin end }
{
    may_run && end - begin >= 2 && is_whole(key, begin, end)
}

/// Whether the part is of one class, and no character of this class follows.
fn is_whole(key: &[char], begin: u16, end: u16) -> bool
    requires forward { begin < end }
    requires inside { end ≤ length key.now }
    ensures { result ≡ (list_all (is_of (class_at key.now begin)) (slice_range key.now begin end) && ends_run (class_at key.now begin) key.now end) }
{
    let class = class_of(key[usize::from(begin)]);
    // The end first: few parts stand before another class.
    ends_run(class, key, end) && are_of(class, &key[usize::from(begin)..usize::from(end)])
}

fn are_of(class: Class, part: &[char]) -> bool
    ensures { result ≡ list_all (is_of class) part.now }
{
    part.iter().all(|c| class_of(*c) == class)
}

fn makes_runs(class: Class) -> bool
    ensures { result ≡ makes_runs class }
{
    match class {
        Class::Katakana | Class::Digit | Class::Letter => true,
        Class::Hiragana | Class::Other => false,
    }
}

fn is_of(class: Class, c: char) -> bool
    ensures { result ≡ is_of class c }
{
    class_of(c) == class
}

fn starts_run(class: Class, key: &[char], begin: u16) -> bool
    requires { begin < length key.now }
    ensures { result ≡ starts_run class key.now begin }
{
    begin == 0 || !is_of(class, key[usize::from(begin) - 1])
}

fn ends_run(class: Class, key: &[char], end: u16) -> bool
    requires { end ≤ length key.now }
    ensures { result ≡ ends_run class key.now end }
{
    usize::from(end) == key.len() || !is_of(class, key[usize::from(end)])
}
