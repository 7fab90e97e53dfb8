//! Scripts and tables, what they print, and the program's call.
//!
//! [`plain`] is the call of all forms that wait for nobody. It reads the files that its words name from any shelf and
//! writes lines to any output: of a script, each command goes through the ring of a bench, and each frame is searched
//! in the bench's tables; of a table of flow steering rules, the commands that it is compiled to, or what a bench that
//! was sent them does with each frame of a capture, or with frames that are drawn from a seed; of a script and a
//! capture, the frames go to the sinks of their queues; of an image of guest memory, each chain of a split virtqueue is
//! gathered. Bench, queue, compiling, captures and loads are those of the crates below; scripts, texts, statuses and
//! limits are this project's own.
//!
//! [`top`] also carries live runs out, in which workers classify frames while commands change the rules; it hands all
//! other words to `plain`. A live run has many texts, those of its legal runs: where the shelf tells its files and the
//! output tells its bytes, `top` writes one of them.
//!
//! What is promised, on `plain` itself: where the shelf tells its files and the output tells its bytes, the status and
//! what was written are the outcome that is defined for the words and the files; a failed read or write, and want of
//! memory, end a run earlier, and then a front of the defined text was written; so it is said what the sinks of a rack
//! got. [`read_script`] gives the script that a text spells, or its first fault, and reads the canonical text of a
//! script as that script.
//!
//! The way of a run: `form` (what the words ask for; `drain_words` has the place of a queue, `load_words` the number of
//! frames), a module for each form (`replay`, `compile`, `table`, `steering`, `load`, `drain`), which reads its files
//! by `file`, `compiled` or `image` and runs, and `ending` (its status, and the line of a refusal); `stop` has why a
//! form ends early, and `table_refusal` why tables and captures are refused. What is written is gathered by `text`,
//! `tally`, `load_text` and `drain_text`; `delivery` hands frames to sinks; `compile_text` writes the script of a
//! compiled table. Scripts are read by `grammar`, line by line: `device_line` (the first two lines), `select_line` and
//! `item_line`, over the words that `word` reads; `unread_script` reads items as they are asked for, and `error` has
//! what may be wrong with them.
//!
//! Live runs: `live_words` (what the words ask for), `live_run` (what is read), `live_call` (how a run ends),
//! `live_text` (its lines), `live_laws`; `top_call` has the call. In specs/ `LiveWords`, `LiveRuns`, `LiveTexts` (the
//! texts of a live run), `Plans` (one outcome or a live run) and `LiveOrders` (tables in live runs); `LiveEndings` and
//! `PlanEndings` are the code's own.
//!
//! Definitions, in specs/: `Forms` (of words), `Inputs` and `TableInputs` (what the files give, or what is at fault
//! with them) and `Outcomes` (statuses and texts, form by form); `Grammar` (scripts), `DeviceLines`, `SelectLines` and
//! `ItemLines` (their lines), `Words`; `DeviceFiles` (files of a device alone); `ScriptTexts` (canonical texts) and
//! `Spellable` (which scripts have one); `Replay`, `CompileTexts`, `Tables` and `Loads` (what these forms write) and
//! `TableRefusals` (the words of refusals); `Steering` and `SteerInputs` (what is steered, and what sinks get);
//! `LoadWords`, `DrainWords` and `Drain` (the words behind `gen` and `drain`, and what a drain finds and writes).
//! `Readings`, `UnreadScripts`, `Endings`, `SteerEndings`, `Results`, `Programs`, `Deliveries` and `Tallies` are the
//! code's own. The laws that stand on no other call are those of `laws`. Worked rows stand in `proofs/Rows.antt`,
//! `proofs/TableRows.antt`, `proofs/LoadRows.antt` and `proofs/DrainRows.antt`, faulty texts in
//! `proofs/GrammarExamples.antt`.
#![tactic(auto)]

mod compile;
mod compile_text;
mod compiled;
mod delivery;
mod device_line;
mod drain;
mod drain_text;
mod drain_words;
mod ending;
mod error;
mod file;
mod form;
mod grammar;
mod image;
mod item_line;
pub mod laws;
mod live_call;
pub mod live_laws;
mod live_run;
mod live_text;
mod live_words;
mod load;
mod load_text;
mod load_words;
mod program;
mod replay;
mod script;
mod select_line;
mod steering;
mod stop;
mod table;
mod table_refusal;
mod tally;
mod text;
mod top_call;
mod unread_script;
mod word;

pub use ending::{DONE, FAULTY_WORDS, NO_MEMORY, READ_FAULT, REFUSED, WRITE_FAULT};
pub use error::{Reason, ScriptFault};
pub use generated_load::draw;
pub use grammar::{read_device_file, read_script};
pub use program::plain;
pub use script::{Item, Script};
pub use steer::AdminLine;
pub use top_call::top;
