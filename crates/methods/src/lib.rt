// The methods of a job: each is lent what its public entry is lent, and its contract is a step of all tables, whatever the others hold. The
// exports call them. Each has a file of its own.
#![tactic(auto)]

mod cross;
mod enrol;
mod fill;
mod look;
mod open;
mod point;
mod request;
mod row;
mod seam;
mod strain;
mod total;

use job::Job;

// A job, handed from step to step by value.
#[derive(Clone, Copy)]
pub struct Joining {
    pub job: Job,
}
