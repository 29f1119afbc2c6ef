use crate::suggestions::history_of;
use example_set::ExampleSet;
use mz_base::{Ask, Candidate, NoMemory, Text};
use rewrite_rules::{apply, newest_for, rewrite_by};
use std::alloc::Global;
use std::test::Fail;

// The numbers of rules, the key, the history, the newest pair first, the values of a list, and what the rules make of it; a
// star stands at a value with a cost.
// Kana; a key that a candidate has. Numbers: with a 0 in front, with groups of zeros, the greatest, one digit too many, in
// full width. Half width: what is wide already, or has a space or another character; what a candidate has; many. What was
// chosen: another key, an absent value, the newer of two, what only a rule added. All rules; a number that no rule has.
const RULES: &str = "\
2|きょう||今日,京|今日*,京*,きょう,キョウ,ｷｮｳ,
2|ガー||ガー|ガー*,ｶﾞｰ,
3|1203||1203|1203*,１２０３,一二〇三,千二百三,
3|0|||０,〇,
3|007|||００７,〇〇七,
3|10|||１０,一〇,十,
3|110|||１１０,一一〇,百十,
3|1010|||１０１０,一〇一〇,千十,
3|10000|||１００００,一〇〇〇〇,一万,
3|11110000|||１１１１００００,一一一一〇〇〇〇,千百十一万,
3|100000|||１０００００,一〇〇〇〇〇,十万,
3|100000001|||１０００００００１,一〇〇〇〇〇〇〇一,一億一,
3|1000000000000000|||１０００００００００００００００,一〇〇〇〇〇〇〇〇〇〇〇〇〇〇〇,千兆,
3|9999999999999999|||９９９９９９９９９９９９９９９９,九九九九九九九九九九九九九九九九,九千九百九十九兆九千九百九十九億九千九百九十九万九千九百九十九,
3|99999999999999999|||
3|１２３|||
3|12a|||
4|あ||abc,ＡＢ,a b,あa,!,~|abc*,ＡＢ*,a b*,あa*,!*,~*,ａｂｃ,！,～,
4|あ||a,ａ|a*,ａ*,
4|99999999999999999||99999999999999999|99999999999999999*,９９９９９９９９９９９９９９９９９,
4|あ||a,b,c,d,e,f,g,h,i,j,k,l,m,n,o,p,q,r,s,t,u,v,w,x,y,z,0,1,2,3,4,5,6,ｂ|a*,b*,c*,d*,e*,f*,g*,h*,i*,j*,k*,l*,m*,n*,o*,p*,q*,r*,s*,t*,u*,v*,w*,x*,y*,z*,0*,1*,2*,3*,4*,5*,6*,ｂ*,ａ,ｃ,ｄ,ｅ,ｆ,ｇ,ｈ,ｉ,ｊ,ｋ,ｌ,ｍ,ｎ,ｏ,ｐ,ｑ,ｒ,ｓ,ｔ,ｕ,ｖ,ｗ,ｘ,ｙ,ｚ,０,１,２,３,４,５,６,
56|きょう||今日|今日*,
1|きょう|きょう 京|今日,京,凶|京*,今日*,凶*,
1|きょう|は 京|今日,京|今日*,京*,
1|きょう|きょう 教;きょう 京|今日,京|京*,今日*,
1|きょう|きょう 京;きょう 凶|今日,京,凶|京*,今日*,凶*,
1|きょう||今日,京|今日*,京*,
21|きょう|きょう キョウ|今日|キョウ,今日*,きょう,ｷｮｳ,
12|きょう|きょう キョウ|今日|今日*,きょう,キョウ,ｷｮｳ,
234561|きょう|きょう 京|今日,京|京*,今日*,きょう,キョウ,ｷｮｳ,
234561|1203||1203|1203*,１２０３,一二〇三,千二百三,
123456|きょう|きょう ｷｮｳ|今日|今日*,きょう,キョウ,ｷｮｳ,
07|きょう|きょう 京|今日,京|今日*,京*,
";

#[test]
fn rewrites_by_each_rule(rt: HostRuntime) -> Result<(), Fail> {
    let alloc = rt.alloc();
    for line in RULES.lines() {
        assert_eq!(rt; rewritten(alloc, line)?.as_str(), line);
    }
    Ok(())
}

// A key, a history, a list, and the place of what was chosen last.
const CHOSEN: &str = "\
きょう|きょう 京|今日,京|1
きょう|きょう 京;きょう 今日|今日,京|1
きょう|は 京|今日,京|none
きょう|きょう 教|今日,京|none
きょう||今日,京|none
";

#[test]
fn finds_what_was_chosen_last(rt: HostRuntime) -> Result<(), Fail> {
    let alloc = rt.alloc();
    for line in CHOSEN.lines() {
        assert_eq!(rt; chosen(alloc, line)?.as_str(), line);
    }
    Ok(())
}

// One call of `apply` after the other gives what `rewrite_by` gives.
#[test]
fn applies_a_rule_to_a_list_that_stays(rt: HostRuntime) -> Result<(), Fail> {
    let alloc = rt.alloc();
    let list = candidates(alloc, "1203")?;
    let key: Vec<char> = "1203".chars().collect(alloc)?;
    let ask = Ask {
        set: &ExampleSet,
        history: &[],
        key: key.as_slice(),
    };
    let kana = apply(alloc, 2, &ask, list.as_slice())?;
    let numbers = apply(alloc, 3, &ask, kana.as_slice())?;
    assert_eq!(rt; shown(alloc, list.as_slice())?.as_str(), "1203*,");
    assert_eq!(rt;
        shown(alloc, numbers.as_slice())?.as_str(),
        "1203*,１２０３,一二〇三,千二百三,"
    );
    Ok(())
}

// A field of a line.
fn field(line: &str, place: usize) -> &str {
    line.split('|').nth(place).unwrap_or("")
}

fn rewritten(alloc: Global, line: &str) -> Result<String, NoMemory> {
    let rules = numbers(alloc, field(line, 0))?;
    let key: Vec<char> = field(line, 1).chars().collect(alloc)?;
    let history = history_of(alloc, field(line, 2))?;
    let list = candidates(alloc, field(line, 3))?;
    let ask = Ask {
        set: &ExampleSet,
        history: history.as_slice(),
        key: key.as_slice(),
    };
    let made = rewrite_by(alloc, rules.as_slice(), &ask, list)?;
    let text = shown(alloc, made.as_slice())?;
    Ok(format!(in alloc;
        "{}|{}|{}|{}|{text}",
        field(line, 0),
        field(line, 1),
        field(line, 2),
        field(line, 3)
    )?)
}

fn chosen(alloc: Global, line: &str) -> Result<String, NoMemory> {
    let key: Vec<char> = field(line, 0).chars().collect(alloc)?;
    let history = history_of(alloc, field(line, 1))?;
    let list = candidates(alloc, field(line, 2))?;
    let mut text = format!(in alloc; "{}|{}|{}|", field(line, 0), field(line, 1), field(line, 2))?;
    match newest_for(history.as_slice(), key.as_slice(), list.as_slice()) {
        Some(place) => write!(text, "{place}")?,
        None => text.push_str("none")?,
    }
    Ok(text)
}

fn numbers(alloc: Global, text: &str) -> Result<Vec<u8>, NoMemory> {
    let mut numbers = Vec::new(alloc);
    for c in text.chars() {
        numbers.push(number(c))?;
    }
    Ok(numbers)
}

fn number(c: char) -> u8 {
    match c {
        '1' => 1,
        '2' => 2,
        '3' => 3,
        '4' => 4,
        '5' => 5,
        '6' => 6,
        '7' => 7,
        _ => 0,
    }
}

// Candidates with these values, each with a cost.
fn candidates(alloc: Global, text: &str) -> Result<Vec<Candidate>, NoMemory> {
    let mut list = Vec::new(alloc);
    for value in text.split(',') {
        if !value.is_empty() {
            list.push(Candidate {
                value: Text::from_str(alloc, value)?,
                cost: Some(100),
            })?;
        }
    }
    Ok(list)
}

fn shown(alloc: Global, list: &[Candidate]) -> Result<String, NoMemory> {
    let mut text = String::new(alloc);
    for candidate in list {
        let star = if candidate.cost.is_some() { "*" } else { "" };
        write!(text, "{}{star},", candidate.value)?;
    }
    Ok(text)
}
