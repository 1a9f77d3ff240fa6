//! Tests of texts, over what crates make public. Of bz_requests, bz_words and bz_breakpad_table they
//! show what is read; of bz_canon what is written, and of bz_words what is said of a run.
#![tactic(auto)]

#[cfg(test)]
mod addresses;
#[cfg(test)]
mod answer_texts;
#[cfg(test)]
mod canonical_texts;
#[cfg(test)]
mod generated;
#[cfg(test)]
mod refused_texts;
#[cfg(test)]
mod requests;
#[cfg(test)]
mod said;
#[cfg(test)]
mod words;
