ghost use Rattle.std.specs.Prelude.{◌<◌, ◌≤◌, ◌^◌, length};
ghost use Rattle.mz_base.specs.declared.data.TheConstants.{MOST_IDS};
ghost use Rattle.mz_base.specs.declared.fault.Role.TheVariants.{Dictionary};
ghost use Rattle.engine.specs.Answers.{Gives};
ghost use Rattle.engine.specs.Sets.{data_of, files_of, costs_given, features_given, unknown_given, joins_given, names_given, rules_given, symbols_given, kanji_given};
ghost use Rattle.engine.specs.Tables.{data_in};

use crate::error::{BuildError, located};
use crate::files::{SetFile, bytes_of};
use crate::words::read_words;
use conn_matrix::Matrix;
use mz_base::{MOST_IDS, Role, UnknownRow, WordRow};
use pos_table::{Ids, Joins, Kanji, Symbols, UNKNOWN_COST, UNKNOWN_ID, Unknown, UserPos};
use romaji_table::Table;
use std::alloc::Global;

/// What the files of a data set give.
#[derive(Drop)]
pub struct Tables {
    pub matrix: Matrix,
    pub ids: Ids,
    pub unknown: Unknown,
    pub joins: Joins,
    pub pos: UserPos,
    pub rules: Table,
    pub words: Vec<WordRow>,
    pub symbols: Symbols,
    pub kanji: Kanji,
}

/// Reads the files in the order in which their faults count.
pub fn read_tables(alloc: Global, files: &[SetFile]) -> Result<Tables, BuildError>
    requires few { length (files_of Dictionary files.now) < 2 ^ 32 }
    ensures { Gives data_in result (data_of files.now) }
{
    let matrix = read_matrix(alloc, files)?;
    let n_ids = matrix.size();
    let ids = read_ids(alloc, files, n_ids)?;
    let unknown = read_unknown(alloc, files, n_ids)?;
    let joins = read_joins(alloc, files, n_ids)?;
    let pos = read_user_pos(alloc, files, &ids)?;
    let rules = read_rules(alloc, files)?;
    let words = read_words(alloc, files, n_ids)?;
    let symbols = read_symbols(alloc, files)?;
    let kanji = read_kanji(alloc, files)?;
    Ok(Tables {
        matrix,
        ids,
        unknown,
        joins,
        pos,
        rules,
        words,
        symbols,
        kanji,
    })
}

fn read_matrix(alloc: Global, files: &[SetFile]) -> Result<Matrix, BuildError>
    ensures { Gives (λ matrix. matrix) result (costs_given files.now) }
{
    match bytes_of(files, Role::Connection) {
        Some(bytes) => located(Role::Connection, 1, Matrix::read(alloc, bytes)),
        None => Ok(Matrix::from_rows(alloc, 1, vec![in alloc; 0i32]?)?),
    }
}

fn read_ids(alloc: Global, files: &[SetFile], n_ids: u32) -> Result<Ids, BuildError>
    requires { n_ids ≤ MOST_IDS }
    ensures { Gives (λ ids. ids) result (features_given n_ids files.now) }
{
    match bytes_of(files, Role::Id) {
        Some(bytes) => located(Role::Id, 1, pos_table::read_ids(alloc, bytes, n_ids)),
        None => Ok(Ids::from_rows(Vec::new(alloc))),
    }
}

fn read_unknown(alloc: Global, files: &[SetFile], n_ids: u32) -> Result<Unknown, BuildError>
    requires { n_ids ≤ MOST_IDS }
    ensures { Gives (λ unknown. unknown) result (unknown_given n_ids files.now) }
{
    match bytes_of(files, Role::Unk) {
        Some(bytes) => located(Role::Unk, 1, pos_table::read_unknown(alloc, bytes, n_ids)),
        None => {
            let row = UnknownRow {
                id: UNKNOWN_ID,
                cost: UNKNOWN_COST,
            };
            Ok(Unknown::from_rows([row; 5]))
        }
    }
}

fn read_joins(alloc: Global, files: &[SetFile], n_ids: u32) -> Result<Joins, BuildError>
    requires { n_ids ≤ MOST_IDS }
    ensures { Gives (λ joins. joins) result (joins_given n_ids files.now) }
{
    match bytes_of(files, Role::Segment) {
        Some(bytes) => located(Role::Segment, 1, pos_table::read_joins(alloc, bytes, n_ids)),
        None => Ok(Joins::from_rows(Vec::new(alloc))),
    }
}

fn read_user_pos(alloc: Global, files: &[SetFile], ids: &Ids) -> Result<UserPos, BuildError>
    ensures { Gives (λ pos. pos) result (names_given ids.now files.now) }
{
    match bytes_of(files, Role::UserPos) {
        Some(bytes) => located(
            Role::UserPos,
            1,
            pos_table::read_user_pos(alloc, bytes, ids),
        ),
        None => Ok(UserPos::from_rows(Vec::new(alloc))),
    }
}

fn read_rules(alloc: Global, files: &[SetFile]) -> Result<Table, BuildError>
    ensures { Gives (λ rules. rules) result (rules_given files.now) }
{
    match bytes_of(files, Role::Romaji) {
        Some(bytes) => located(Role::Romaji, 1, romaji_table::read(alloc, bytes)),
        None => Ok(Table::from_rows(alloc, Vec::new(alloc))?),
    }
}

fn read_symbols(alloc: Global, files: &[SetFile]) -> Result<Symbols, BuildError>
    ensures { Gives (λ symbols. symbols) result (symbols_given files.now) }
{
    match bytes_of(files, Role::Symbol) {
        Some(bytes) => located(Role::Symbol, 1, pos_table::read_symbols(alloc, bytes)),
        None => Ok(Symbols::from_rows(alloc, Vec::new(alloc))?),
    }
}

fn read_kanji(alloc: Global, files: &[SetFile]) -> Result<Kanji, BuildError>
    ensures { Gives (λ kanji. kanji) result (kanji_given files.now) }
{
    match bytes_of(files, Role::Kanji) {
        Some(bytes) => located(Role::Kanji, 1, pos_table::read_kanji(alloc, bytes)),
        None => Ok(Kanji::from_rows(alloc, Vec::new(alloc))?),
    }
}
