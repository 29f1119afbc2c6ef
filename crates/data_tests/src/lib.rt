//! Tests of what all crates share and of what reads files: lines, numbers, folds, lists, tables and look-ups, each reader,
//! the data set of its files, and a dictionary of real size. Nothing else stands here.
#![tactic(auto)]

#[cfg(test)]
mod certificates;
#[cfg(test)]
mod connections;
#[cfg(test)]
mod dictionary;
#[cfg(test)]
mod folds;
#[cfg(test)]
mod lists;
#[cfg(test)]
mod look_ups;
#[cfg(test)]
mod manifests;
#[cfg(test)]
mod romaji;
#[cfg(test)]
mod sets;
#[cfg(test)]
mod shared;
#[cfg(test)]
mod tables;
#[cfg(test)]
mod word_rows;
