//! The tests of the crates of one lattice: its entries, the best path, all paths in order, certificates, segments; of the
//! rules and of suggestions; and of what each data set finds by its own look-ups. They share the small data set of `example_set`.
//! Nothing else stands here.
#![tactic(auto)]

#[cfg(test)]
mod all_paths;
#[cfg(test)]
mod best_path;
#[cfg(test)]
mod certificates;
#[cfg(test)]
mod cuts;
#[cfg(test)]
mod data;
#[cfg(test)]
mod entries;
#[cfg(test)]
mod lattices;
#[cfg(test)]
mod rules;
#[cfg(test)]
mod suggestions;
