//! The directives of a scene: the texts that it is made of, and the flat list of tokens that they come to.
#![tactic(auto)]

mod arguments;
mod begin;
mod blocks;
mod declaration;
mod declared_blocks;
mod declares;
mod expansion;
mod flat;
mod folder_texts;
mod frames;
mod include;
mod law;
mod machine;
mod made;
mod mem_texts;
mod part;
mod passage;
mod plain;
mod readings;
mod settle;
mod stop;
mod texts;
mod told;
mod words;

pub use expansion::expand;
pub use flat::{Flat, Source};
pub use folder_texts::FolderTexts;
pub use law::{
    break_laws, call_laws, declare_laws, for_laws, front_law, if_law, include_laws, message_laws,
    name_laws, one_expansion, one_outcome, switch_laws, while_laws,
};
pub use mem_texts::MemTexts;
pub use stop::Stop;
pub use texts::{ReadFail, Text, Texts};
