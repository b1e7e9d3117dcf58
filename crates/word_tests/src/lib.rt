//! Tests of what works on words: unification, the tests and expressions of guards, texts of values, waiting lists, layouts.
#![tactic(auto)]

#[cfg(test)]
mod deep_terms;
#[cfg(test)]
mod guards;
#[cfg(test)]
mod page_layouts;
#[cfg(test)]
mod slots;
#[cfg(test)]
mod stored;
#[cfg(test)]
mod unification;
#[cfg(test)]
mod value_texts;
#[cfg(test)]
mod waiting_lists;
#[cfg(test)]
mod words;
