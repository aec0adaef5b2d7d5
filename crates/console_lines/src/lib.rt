// Lines of standard input (`lines`), and what each says: its items (`items`), its word and their forms (`words`), whether it is taken
// (`judging`) or why not (`reasons`), and its values (`said`). No box stands here.
#![tactic(auto)]

pub mod items;
pub mod judging;
pub mod lines;
pub mod reasons;
pub mod said;
pub mod words;
