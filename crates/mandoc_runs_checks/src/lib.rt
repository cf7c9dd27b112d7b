//! Tests of the command line, on public calls, and of what command lines do where no run can make it so: a flush or the reading of a folder's names
//! fails, each call of files and streams fails in turn, and a signal interrupts reads and writes (mandoc(1), makewhatis(8), whatis(1)). All else
//! that a command line does is shown by runs of the program (`tools/program_cases`).
#![tactic(auto)]

#[cfg(test)]
mod commands;
#[cfg(test)]
mod failing_files;
#[cfg(test)]
mod flushes;
#[cfg(test)]
mod indexes;
#[cfg(test)]
mod runs;
