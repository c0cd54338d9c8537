//! What every command stands on: the command line and the job that its words ask for; why a job has no answer, and the line that says
//! so; inputs, which are read whole, and texts, which are written.
#![tactic(auto)]

mod argument;
mod commands;
mod device;
mod help;
mod input;
mod input_file;
mod job;
mod line_fault;
mod matched;
mod parser;
mod refusal;
mod word_fault;
mod words;

pub use commands::{
    Answer, Blame, Canon, Check, CheckSubject, Diff, Explain, Export, Import, ImportList, Log,
    Migrate, Plan, PolicySource, PolicyText, Reach, Remove, Request, Reverse, Rights, Service,
    Split, Undo, Zones,
};
pub use device::{ended, write_answer, write_octets, write_refusal, write_text};
pub use input::{Input, read_input};
pub use input_file::read_path;
pub use job::{
    Advice, BlameForm, DiffContent, DiffForm, Existing, GuardScope, ItemForm, Job, LogChoice,
    PlanForm, PlanLines, PlanObject, QuestionWords, ReachContent, RequestForm, RuleChoice,
    StoreJob, StoredZone, TextForm, TextJob, ZoneFiles, ZoneForm, ZoneRules,
};
pub use line_fault::{JobFault, LineFault, NO_MEMORY_LINE};
pub use refusal::{Refusal, RefusalLine};
pub use word_fault::WordFault;
pub use words::{WordsFault, read_words};
