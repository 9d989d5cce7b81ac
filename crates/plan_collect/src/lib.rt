//! Collection along the syntax trees of documents, and the operation that a text is (GraphQL, October
//! 2021, section 6.3.2), as definitions, and theorems about them. It has no call that the program makes;
//! its definitions stand in `specs/`.
#![tactic(auto)]
