// Worked examples of rounding, sharing, price sources, postings, the month's expense and its text.
#![tactic(auto)]

#[cfg(test)]
mod expense;
#[cfg(test)]
mod expense_file;
#[cfg(test)]
mod fields;
#[cfg(test)]
mod groups;
#[cfg(test)]
mod postings_and_phases;
#[cfg(test)]
mod price_sources;
#[cfg(test)]
mod price_table;
#[cfg(test)]
mod refusals;
#[cfg(test)]
mod rounding;
#[cfg(test)]
mod sharing;
