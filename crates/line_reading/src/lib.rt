//! Readers over the tokens of a description's lines, which the readers of all three descriptions share.
#![tactic(auto)]

mod cursor;
mod fault;
mod names;
pub mod signs;
mod spelled;
mod stop;
mod text;

pub use cursor::Cursor;
pub use fault::SyntaxFault;
pub use names::{read_names, read_names_in_parens};
pub use spelled::{put_name, put_names, put_number, put_sign};
pub use stop::Stop;
pub use text::{LineValue, read_text};
