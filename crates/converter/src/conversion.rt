ghost use Rattle.std.specs.Prelude.{◌≡◌, ℕ, All, IfOk, [], map};
ghost use Rattle.conversion_meaning.specs.Answers.{answer, segment_of, segments_of};
ghost use Rattle.conversion_meaning.specs.Lattices.{AreBounds, IsKey, IsLatticeOf, IsWellFormed};
ghost use Rattle.conversion_meaning.specs.Paths.{IsPathOver, IsSpan, whole};
ghost use Rattle.conversion_meaning.specs.Segments.{span_between};
ghost use Rattle.conversion_meaning.specs.declared.rules.TheConstants.{RULE_ORDER};

use crate::spans::{part_of, span_between};
use conversion_meaning::RULE_ORDER;
use mz_base::{Ask, Conversion, DataSet, Lattice, NoMemory, Pair, Segment, Seq, UserWords};
use std::alloc::Global;

/// The answer to a key within the bounds: the best path with its certificate, and its segments with their values, as the
/// rules leave them. The history is the user's, the newest pair first; the certificate tells the path before any rule.
pub fn convert<D: DataSet, U: UserWords>(
    alloc: Global,
    set: &D,
    user: &U,
    history: &[Pair],
    key: &[char],
    bounds: &[u16],
) -> Result<Conversion, NoMemory>
    requires key { IsKey key.now }
    requires bounds { AreBounds key.now bounds.now }
    ensures { IfOk result (λ conversion. conversion ≡ answer (D.lists set.now) (U.rows user.now) history.now RULE_ORDER key.now bounds.now) }
{
    let lattice = lattice::build(alloc, set, user, key, bounds)?;
    let certificate = viterbi::solve(alloc, set, &lattice, &lattice::whole(&lattice))?;
    let segments = segments_of(
        alloc,
        set,
        user,
        history,
        &lattice,
        certificate.path.as_slice(),
    )?;
    Ok(Conversion {
        certificate,
        segments: Seq::from_vec(segments),
    })
}

/// The segments of a path over the whole key, with their values.
fn segments_of<D: DataSet, U: UserWords>(
    alloc: Global,
    set: &D,
    user: &U,
    history: &[Pair],
    lattice: &Lattice,
    path: &[u32],
) -> Result<Vec<Segment>, NoMemory>
    requires made { IsLatticeOf (D.lists set.now) (U.rows user.now) lattice.now }
    requires well { IsWellFormed (D.lists set.now) lattice.now }
    requires joined { IsPathOver lattice.now.entries (whole lattice.now 0) path.now }
    ensures { IfOk result (λ segments. segments.items ≡ segments_of (D.lists set.now) (U.rows user.now) history.now RULE_ORDER lattice.now.key lattice.now.entries lattice.now.bounds path.now) }
{
    let parts = segments::cut(alloc, set, lattice, path)?;
    segments_at(alloc, set, user, history, lattice, path, parts.as_slice())
}

/// The segments that are these parts of the key.
fn segments_at<D: DataSet, U: UserWords>(
    alloc: Global,
    set: &D,
    user: &U,
    history: &[Pair],
    lattice: &Lattice,
    path: &[u32],
    parts: &[(u16, u16)],
) -> Result<Vec<Segment>, NoMemory>
    requires made { IsLatticeOf (D.lists set.now) (U.rows user.now) lattice.now }
    requires spans { All (λ (part : ℕ × ℕ). IsSpan (D.lists set.now) lattice.now (span_between lattice.now.entries path.now part)) parts.now }
    ensures { IfOk result (λ segments. segments.items ≡ map (segment_of (D.lists set.now) (U.rows user.now) history.now RULE_ORDER lattice.now.key lattice.now.entries path.now) parts.now) }
{
    let mut segments = Vec::with_capacity(alloc, parts.len())?;
    for (begin, end) in parts {
        segments.push(segment_of(alloc, set, user, history, lattice, path, *begin, *end)?)?;
    }
    Ok(segments)
}

/// A segment, with its first values between the ids of the path on its borders, as the rules leave them.
fn segment_of<D: DataSet, U: UserWords>(
    alloc: Global,
    set: &D,
    user: &U,
    history: &[Pair],
    lattice: &Lattice,
    path: &[u32],
    begin: u16,
    end: u16,
) -> Result<Segment, NoMemory>
    requires made { IsLatticeOf (D.lists set.now) (U.rows user.now) lattice.now }
    requires span { IsSpan (D.lists set.now) lattice.now (span_between lattice.now.entries path.now (begin, end)) }
    ensures { IfOk result (λ segment. segment ≡ segment_of (D.lists set.now) (U.rows user.now) history.now RULE_ORDER lattice.now.key lattice.now.entries path.now (begin, end)) }
{
    let span = span_between(lattice.entries.as_slice(), path, begin, end);
    let firsts = nbest::distinct(alloc, set, user, lattice, &span)?;
    let ask = Ask {
        set,
        history,
        key: part_of(lattice.key.as_slice(), begin, end),
    };
    let candidates = rewrite_rules::rewrite_by(alloc, &RULE_ORDER, &ask, firsts)?;
    Ok(Segment {
        begin,
        end,
        candidates: Seq::from_vec(candidates),
    })
}
