//! Laws and known values of the definitions.

mod answers;
mod command;
mod context;
mod crash;
mod journal;
mod known_faults;
mod known_run;
mod make;
mod opened;
mod opening;
mod output;
mod run;
mod source_reading;
mod writing;
