//! The words of a command.

ghost use Rattle.std.specs.Prelude.{◌≡◌, ◌≤◌, ◌^◌, IfOk, IfErr, IfSome, Some, None, false, option_map};
ghost use Rattle.clap.specs.Matches.{first_value, found_of};
ghost use Rattle.clap.specs.Simple.{app_of, with_rule};
ghost use Rattle.clap.specs.Values.{kind_of};
ghost use Rattle.clap.specs.Walk.{rule_of};
ghost use Rattle.hpe_cmd.specs.NumberWords.{NumbersAreAsked};
ghost use Rattle.hpe_cmd.specs.Words.{action_of, action_rule, asked, command, frames_rule, limit_of, limit_rule, lost_rule, most_of, noise_rule, number_of, number_within, profile_rule, request_of, request_read, seed_rule, simulates, takes_limit, takes_workers, task_of, text_behind, texts_of, workers_of, workers_rule};

use crate::ending::LIMIT;
use clap::builder::ValueParser;
use clap::error::ErrorKind;
use clap::{Arg, ArgMatches, Command, Error};
use hpe_sim::Task;
use std::alloc::Global;

/// The most words that are decoded at once.
pub const WORKERS: u64 = 16;

/// The most slots of a simulation, where the words name no fewer.
pub const SLOTS: u64 = 1 << 28;

/// The greatest seed of a simulation.
pub const SEED: u64 = (1 << 63) - 1;

/// The most frames of a simulation, the most of 65,536 pulses that it loses, and of 65,536 slots that have noise.
pub const PARTS: u64 = 65_535;

/// What the program can do.
#[derive(Clone, Copy, Debug, PartialEq, Eq)]
pub enum Action {
    /// Encode transfer frames to slots.
    Encode,
    /// Decode counts of slots to transfer frames.
    Decode,
    /// Write the measures of the profile.
    Geometry,
    /// Simulate a link, and write what came back.
    Simulate,
}

/// What words ask.
#[derive(Clone, Copy, Debug)]
pub struct Asked<'a> {
    pub action: Action,
    /// The name of the profile file; without one the profile is the built-in one.
    pub profile: Option<&'a str>,
    /// The most octets of the input, or the most slots of the simulation.
    pub limit: u64,
    /// The words that are decoded at once.
    pub workers: u32,
    /// What is to be simulated.
    pub task: Task,
}

/// Why words ask nothing.
#[derive(Clone, Copy, Debug, PartialEq, Eq)]
pub enum Refusal {
    Usage,
    NoMemory,
}

/// The action of that name.
fn action_of(name: &str) -> Option<Action>
    ensures { result ≡ action_of name.now }
{
    match name {
        "encode" => Some(Action::Encode),
        "decode" => Some(Action::Decode),
        "geometry" => Some(Action::Geometry),
        "simulate" => Some(Action::Simulate),
        _ => None,
    }
}

/// Whether the action takes a limit.
fn takes_limit(action: Action) -> bool
    ensures { result ≡ takes_limit action }
{
    match action {
        Action::Encode | Action::Decode | Action::Simulate => true,
        Action::Geometry => false,
    }
}

/// The greatest limit of the action: of octets of an input, or of slots of a simulation.
fn most_of(action: Action) -> u64
    ensures value { result ≡ most_of action }
    ensures range { (1 ≤ result) × (result ≤ 2 ^ 40) }
    ensures slots { action ≡ Action.Simulate → result ≤ 2 ^ 28 }
{
    match action {
        Action::Encode | Action::Decode | Action::Geometry => LIMIT,
        Action::Simulate => SLOTS,
    }
}

/// Whether the action decodes words.
fn takes_workers(action: Action) -> bool
    ensures { result ≡ takes_workers action }
{
    match action {
        Action::Decode | Action::Simulate => true,
        Action::Encode | Action::Geometry => false,
    }
}

/// Whether the action simulates a link.
fn simulates(action: Action) -> bool
    ensures { result ≡ simulates action }
{
    match action {
        Action::Simulate => true,
        Action::Encode | Action::Decode | Action::Geometry => false,
    }
}

/// The number that a text writes, where it is one of `low` to `high`.
fn number_within(text: &str, low: u64, high: u64) -> Option<u64>
    ensures value { result ≡ number_within low high text.now }
    ensures range { IfSome result (λ n. (low ≤ n) × (n ≤ high)) }
{
    match text.parse::<u64>() {
        Ok(number) => {
            if low <= number && number <= high {
                Some(number)
            } else {
                None
            }
        }
        Err(_) => None,
    }
}

/// The number of an option, where the action takes it as it is given, and the default without it.
fn number_of(takes: bool, low: u64, high: u64, default: u64, given: Option<&str>) -> Option<u64>
    requires { (low ≤ default) × (default ≤ high) }
    ensures value { result ≡ number_of takes low high default (text_behind given.entry) }
    ensures range { IfSome result (λ n. (low ≤ n) × (n ≤ high)) }
{
    match given {
        Some(text) => {
            if takes {
                number_within(text, low, high)
            } else {
                None
            }
        }
        None => Some(default),
    }
}

/// The most octets of the input, or the most slots of the simulation.
fn limit_of(action: Action, given: Option<&str>) -> Option<u64>
    ensures value { result ≡ limit_of action (text_behind given.entry) }
    ensures range { IfSome result (λ n. (1 ≤ n) × (n ≤ 2 ^ 40)) }
    ensures slots { action ≡ Action.Simulate → IfSome result (λ n. n ≤ 2 ^ 28) }
{
    let most = most_of(action);
    number_of(takes_limit(action), 1, most, most, given)
}

/// The words that are decoded at once.
fn workers_of(action: Action, given: Option<&str>) -> Option<u64>
    ensures value { result ≡ workers_of action (text_behind given.entry) }
    ensures range { IfSome result (λ n. (1 ≤ n) × (n ≤ 16)) }
{
    number_of(takes_workers(action), 1, WORKERS, 1, given)
}

/// What is to be simulated by the values of the command's arguments.
fn task_of(action: Action, matches: &ArgMatches) -> Option<Task>
    ensures value { result ≡ task_of action (first_value (found_of matches.now)) }
    ensures frames { IfSome result (λ t. t.frames ≤ 65535) }
{
    let takes = simulates(action);
    let seed = number_of(takes, 0, SEED, 0, matches.get_str("seed"))?;
    let frames = number_of(takes, 0, PARTS, 1, matches.get_str("frames"))?;
    let lost = number_of(takes, 0, PARTS, 0, matches.get_str("lost"))?;
    let noise = number_of(takes, 0, PARTS, 0, matches.get_str("noise"))?;
    Some(Task {
        seed,
        frames: frames as u32,
        lost: lost as u16,
        noise: noise as u16,
    })
}

/// What the values of the command's arguments ask.
fn request_of<'a>(matches: &ArgMatches<'a>) -> Option<Asked<'a>>
    ensures value { option_map request_read result ≡ request_of (first_value (found_of matches.now)) }
    ensures limit { IfSome result (λ a. (1 ≤ a.limit) × (a.limit ≤ 2 ^ 40)) }
    ensures slots { IfSome result (λ a. a.action ≡ Action.Simulate → a.limit ≤ 2 ^ 28) }
    ensures workers { IfSome result (λ a. (1 ≤ a.workers) × (a.workers ≤ 16)) }
    ensures frames { IfSome result (λ a. a.task.frames ≤ 65535) }
{
    let action = action_of(matches.get_str("action")?)?;
    let limit = limit_of(action, matches.get_str("limit"))?;
    let workers = workers_of(action, matches.get_str("workers"))?;
    let task = task_of(action, matches)?;
    Some(Asked {
        action,
        profile: matches.get_str("profile"),
        limit,
        workers: workers as u32,
        task,
    })
}

/// Why the command refuses the words.
fn refusal_of(error: &Error) -> Refusal
    ensures { result ≡ Refusal.Usage → kind_of error.now ≡ ErrorKind.OutOfMemory → ⊥ }
{
    match error.kind() {
        ErrorKind::OutOfMemory => Refusal::NoMemory,
        _ => Refusal::Usage,
    }
}

/// The command with one more argument.
fn with_argument<'a>(command: Command<'a>, argument: Arg<'a>) -> Result<Command<'a>, Refusal>
    ensures ok { IfOk result (λ c. argument.entry.global ≡ false
        → app_of c ≡ with_rule (app_of command.entry) (rule_of argument.entry)) }
    ensures err { IfErr result (λ e. e ≡ Refusal.NoMemory) }
{
    match command.arg(argument) {
        Ok(command) => Ok(command),
        Err(_) => Err(Refusal::NoMemory),
    }
}

fn action_argument<'a>(alloc: Global) -> Arg<'a>
    ensures rule { rule_of result ≡ action_rule }
    ensures local { result.global ≡ false }
{
    Arg::new(alloc, "action").required(true)
}

fn profile_argument<'a>(alloc: Global) -> Arg<'a>
    ensures rule { rule_of result ≡ profile_rule }
    ensures local { result.global ≡ false }
{
    Arg::new(alloc, "profile").long("profile")
}

fn limit_argument<'a>(alloc: Global) -> Arg<'a>
    ensures rule { rule_of result ≡ limit_rule }
    ensures local { result.global ≡ false }
{
    Arg::new(alloc, "limit")
        .long("limit")
        .value_parser(ValueParser::unsigned(1, LIMIT))
}

fn workers_argument<'a>(alloc: Global) -> Arg<'a>
    ensures rule { rule_of result ≡ workers_rule }
    ensures local { result.global ≡ false }
{
    Arg::new(alloc, "workers")
        .long("workers")
        .value_parser(ValueParser::unsigned(1, WORKERS))
}

fn seed_argument<'a>(alloc: Global) -> Arg<'a>
    ensures rule { rule_of result ≡ seed_rule }
    ensures local { result.global ≡ false }
{
    Arg::new(alloc, "seed")
        .long("seed")
        .value_parser(ValueParser::unsigned(0, SEED))
}

fn frames_argument<'a>(alloc: Global) -> Arg<'a>
    ensures rule { rule_of result ≡ frames_rule }
    ensures local { result.global ≡ false }
{
    Arg::new(alloc, "frames")
        .long("frames")
        .value_parser(ValueParser::unsigned(0, PARTS))
}

fn lost_argument<'a>(alloc: Global) -> Arg<'a>
    ensures rule { rule_of result ≡ lost_rule }
    ensures local { result.global ≡ false }
{
    Arg::new(alloc, "lost")
        .long("lost")
        .value_parser(ValueParser::unsigned(0, PARTS))
}

fn noise_argument<'a>(alloc: Global) -> Arg<'a>
    ensures rule { rule_of result ≡ noise_rule }
    ensures local { result.global ≡ false }
{
    Arg::new(alloc, "noise")
        .long("noise")
        .value_parser(ValueParser::unsigned(0, PARTS))
}

/// The command of the program.
fn command<'a>(alloc: Global) -> Result<Command<'a>, Refusal>
    ensures ok { IfOk result (λ c. app_of c ≡ command) }
    ensures err { IfErr result (λ e. e ≡ Refusal.NoMemory) }
{
    let command = Command::new(alloc, "hpe");
    let command = with_argument(command, action_argument(alloc))?;
    let command = with_argument(command, profile_argument(alloc))?;
    let command = with_argument(command, limit_argument(alloc))?;
    let command = with_argument(command, workers_argument(alloc))?;
    let command = with_argument(command, seed_argument(alloc))?;
    let command = with_argument(command, frames_argument(alloc))?;
    let command = with_argument(command, lost_argument(alloc))?;
    with_argument(command, noise_argument(alloc))
}

/// What the words ask, of which the first is the program's name. A number in the range of an option is never refused.
#[tactic(auto, using(crate::proofs::NumbersAsked::numbers_are_asked))]
pub fn read_words<'a>(alloc: Global, words: &'a [String]) -> Result<Asked<'a>, Refusal>
    ensures asked { IfOk result (λ a. asked (texts_of words.now) ≡ Some (request_read a)) }
    ensures limit { IfOk result (λ a. (1 ≤ a.limit) × (a.limit ≤ 2 ^ 40)) }
    ensures slots { IfOk result (λ a. a.action ≡ Action.Simulate → a.limit ≤ 2 ^ 28) }
    ensures workers { IfOk result (λ a. (1 ≤ a.workers) × (a.workers ≤ 16)) }
    ensures frames { IfOk result (λ a. a.task.frames ≤ 65535) }
    ensures usage { IfErr result (λ e. e ≡ Refusal.Usage → asked (texts_of words.now) ≡ None) }
    ensures numbers { NumbersAreAsked }
{
    let command = command(alloc)?;
    match command.try_get_matches_from(words) {
        Ok(matches) => match request_of(&matches) {
            Some(asked) => Ok(asked),
            None => Err(Refusal::Usage),
        },
        Err(error) => Err(refusal_of(&error)),
    }
}
