ghost use Rattle.cert_check.specs.Walks.{AreInside, AreSound, Follows, IsInKey, Walks};

use mz_base::{DataSet, Entry, Span};

/// The cost of a path over a span, or the place where it breaks.
pub fn walk<D: DataSet>(set: &D, entries: &[Entry], span: &Span, path: &[u32]) -> Result<i64, u64>
    requires key { IsInKey (D.lists set.now) span.now }
    requires sound { AreSound (D.lists set.now) entries.now }
    requires inside { AreInside entries.now span.now.end }
    ensures { Walks (D.lists set.now) entries.now span.now path.now result }
{
    let mut here = span.begin;
    let mut rid = span.left;
    let mut cost = 0i64;
    for (place, ordinal) in path.iter().enumerate() {
        match following(entries, here, *ordinal) {
            Some(entry) => {
                cost += set.conn(rid, entry.lid) as i64 + entry.cost as i64;
                here = entry.end;
                rid = entry.rid;
            }
            None => return Err(place as u64),
        }
    }
    if here != span.end {
        return Err(path.len() as u64);
    }
    Ok(cost + set.conn(rid, span.right) as i64)
}

fn following(entries: &[Entry], here: u16, ordinal: u32) -> Option<Entry>
    ensures { Follows entries.now here ordinal result }
{
    if (ordinal as usize) < entries.len() && entries[ordinal as usize].begin == here {
        Some(entries[ordinal as usize])
    } else {
        None
    }
}
