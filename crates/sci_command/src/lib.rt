//! What the commands of the programs have in common: how they read a text and say what is wrong with it, how they end, how
//! they write an answer, how they refuse a text, and how they print a packet.
#![tactic(auto)]

mod answer;
mod asked_line;
mod diagnosis;
mod line_forms;
mod line_words;
mod message;
mod outcome;
mod output;
mod packet_line;
mod printer;
mod printing;
mod reading;
mod refusal;
mod text_lines;
mod verdict;
mod words;
mod writing;

pub use answer::{Answer, Answered, Ended, Replayed, finish, parted, show};
pub use asked_line::{Asked, is_asked, read_asked};
pub use outcome::Outcome;
pub use output::Output;
pub use packet_line::{packet_head, packet_tail, push_contents, push_packet, put_contents};
pub use printer::{print_end, print_piece};
pub use printing::push_labelled;
pub use reading::{logs_of, read_logs, read_schedule, read_script};
pub use refusal::{Note, Refusal, word_of_fault};
pub use text_lines::{ReadAs, TextKind, line_of};
pub use verdict::verdict_line;
pub use words::texts_of;
pub use writing::write_answer;
