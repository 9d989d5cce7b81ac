//! Tests of what plans give to a server: expansion, the texts of operations, and the lines of
//! artifacts; and of the plans by which responses are normalized.
#![tactic(auto)]

#[cfg(test)]
mod limits;
#[cfg(test)]
mod normal_plans;
#[cfg(test)]
mod operation_texts;
#[cfg(test)]
mod places;
#[cfg(test)]
mod printing;
#[cfg(test)]
mod rows;
#[cfg(test)]
mod texts;
