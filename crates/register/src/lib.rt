// Types by name and links between them over all tables of a book: loading texts, settling, asking. It stands above the
// numbered book and relies only on that book's promises.
#![tactic(auto)]

mod entering;
pub mod loading;
pub mod refusal;
pub mod register;
pub mod settled;
pub mod tables;
pub mod taking_back;
