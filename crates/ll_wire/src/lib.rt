//! Reads and writes the lines of sessions (commands and replies), of histories, and of schedules. `specs/Grammar.antt`,
//! `specs/Entries.antt` and `specs/ScheduleLines.antt` define their spelling.
#![tactic(auto)]

mod answers;
mod bytes;
mod destination;
mod ends;
mod entry;
mod exchange;
mod fault;
mod feeds;
mod first_words;
mod grammar;
mod header;
mod line;
mod line_out;
mod pair;
mod pieces;
mod read;
mod replies;
mod schedule;
mod sink;
mod spelled;
mod steady;
mod terminal;
mod token;
mod whole;
mod write;

pub use answers::{Answers, answer_lines};
pub use destination::Destination;
pub use ends::{Broken, Ends};
pub use entry::{ENTRY_LIMIT, entry_text, read_entry};
pub use exchange::Exchange;
pub use fault::SessionFault;
pub use first_words::{
    DenialWords, FirstWords, RefusalWords, StatusWords, first_words_text, read_first_words,
};
pub use grammar::{
    entries_fit, spells_one, spells_one_entry, spells_one_header, spells_one_reply,
    spells_one_schedule_line,
};
pub use header::{Header, Version, header_text, read_header};
pub use line::Line;
pub use line_out::write_line;
pub use pair::Pair;
pub use pieces::split_line;
pub use read::{LINE_LIMIT, read_command};
pub use replies::read_reply;
pub use schedule::{ScheduleLine, read_schedule_line};
pub use sink::write_out;
pub use spelled::{is_entered, is_spelled};
pub use steady::{read_steadily, write_steadily};
pub use terminal::{escaped, shown};
pub use token::number_of;
pub use whole::write_whole;
pub use write::{command_text, line_text, reply_line, reply_text, reply_text_behind};
