//! How fast a board runs: `lab_speed LOOP SLOTS` runs a board over a loop of instructions for so many
//! slots, and prints the loop's name, the slots and minstret of all processors together. With the word `wired` the
//! board has a timer, an interrupt controller and wires, and the timer interrupts the loop each 100 microseconds. With
//! `compressed` its processor has compressed instructions, and the loop is one of half-words; with `long` the processor
//! is the same, and the loop is one of words. With `atomic` it has atomic instructions, and with `two` and `four` the
//! board has so many processors of that kind, which all run the loop. `plain` is none of these. A number after such a
//! word is the board's speed in instructions a microsecond of all processors together, else 24 with several and 25 with
//! one.
#![tactic(auto)]

ghost use Rattle.std.specs.Prelude.{◌≡◌, ◌<◌, length};
ghost use Rattle.dev_core.specs.declared.kind.Kind.TheVariants as Kind;
ghost use Rattle.board.specs.New.{first_state};

mod loops;
mod platform;

use board::{Board, SlotAt};
use chips::Chip;
use dev_core::Device;
use lab_num::{LAST, MOST_SPEED, Micros};
use loops::{HALF_WORDS, INTERRUPTS, LOOPS};
use platform::{Form, board_of};
use rv_asm::assemble;
use rv_hart::Letters;
use std::alloc::Global;
use std::process::ExitCode;
use std::rt::Env;
use std::{env, io};
use test_finisher::Finisher;
use uart_16550::Uart;

/// How the program is called.
const USAGE: &str =
    "lab_speed LOOP SLOTS [plain|wired|compressed|long|atomic|two|four [SPEED]], where LOOP is jumps, additions, \
        products, memory, branches, csr, uart or polls";

/// Where the memory begins.
const START: u32 = 0x8000_0000;

/// What is to be run.
#[derive(Clone, Copy)]
struct Task {
    name: &'static str,
    text: &'static str,
    slots: u64,
    form: Form,
    /// Instructions a microsecond.
    speed: u32,
}

/// The form of a board that a word names.
fn form_named(word: &str) -> Option<Form> {
    let (wired, harts, a, c) = match word {
        "plain" => (false, 1, false, false),
        "wired" => (true, 1, false, false),
        "compressed" | "long" => (false, 1, false, true),
        "atomic" => (false, 1, true, false),
        "two" => (false, 2, true, false),
        "four" => (false, 4, true, false),
        _ => return None,
    };
    let letters = Letters { a, c };
    Some(Form {
        wired,
        harts,
        letters,
    })
}

/// Instructions a microsecond of so many processors, where no word says so.
fn usual_speed(harts: usize) -> u32 {
    if harts == 1 { 25 } else { 24 }
}

/// The loop of this name, of words or of half-words, with its text.
fn loop_named(name: &str, half_words: bool) -> Option<(&'static str, &'static str)> {
    if half_words {
        HALF_WORDS.into_iter().find(|l| l.0 == name)
    } else {
        LOOPS.into_iter().find(|l| l.0 == name)
    }
}

/// What the words after the program's name ask for.
fn asked(words: &[String]) -> Option<Task> {
    let (name, slots, word, speed) = match words {
        [name, slots] => (name, slots, "plain", None),
        [name, slots, word] => (name, slots, word.as_str(), None),
        [name, slots, word, speed] => (name, slots, word.as_str(), Some(speed.parse().ok()?)),
        _ => return None,
    };
    let form = form_named(word)?;
    let slots = slots.parse::<u64>().ok()?;
    let (name, text) = loop_named(name.as_str(), word == "compressed")?;
    Some(Task {
        name,
        text,
        slots,
        form,
        speed: speed.unwrap_or(usual_speed(form.harts)),
    })
}

/// The words after the program's name.
fn words_of<R: Env + AllocGlobal>(rt: &R) -> Option<Vec<String>> {
    env::args(rt).ok()?.skip(1).collect(rt.alloc()).ok()
}

/// The text of a task's program.
fn text_of(alloc: Global, task: Task) -> Option<String> {
    let begin = if task.form.wired { INTERRUPTS } else { "" };
    format!(in alloc; "{begin}{}", task.text).ok()
}

/// The words of a text as bytes.
fn program_of(alloc: Global, text: &str) -> Option<Vec<u8>> {
    if text.len() > 1 << 24 {
        return None;
    }
    let mut bytes = Vec::new(alloc);
    for word in assemble(alloc, text).ok()? {
        bytes.extend(word.to_le_bytes()).ok()?;
    }
    Some(bytes)
}

/// Puts a program into the memory of a board, which is to begin with it.
fn load<D: Device>(board: &mut Board<D>, program: &[u8]) -> Option<()> {
    let count = u32::try_from(program.len()).ok()?;
    if !board.holds(START, count) {
        return None;
    }
    board.copy_in(START, program).ok()?;
    for hart in 0..harts_of(board) {
        start(board, hart);
    }
    Some(())
}

/// How many processors a board has.
fn harts_of<D: Device>(board: &Board<D>) -> u8
    ensures value { result ≡ length board.now.view.cores }
    ensures some { 0 < result }
{
    board.plan().cpus.items().len() as u8
}

/// Lets a processor begin with the program.
fn start<D: Device>(board: &mut Board<D>, hart: u8) {
    if hart < harts_of(board) {
        board.set_pc(hart, START);
    }
}

/// How many instructions the processors of a board have retired.
fn retired_by<D: Device>(board: &Board<D>) -> u64 {
    let mut retired = 0_u64;
    for hart in 0..harts_of(board) {
        retired = retired.wrapping_add(board.retired(hart));
    }
    retired
}

/// How many instructions a board has retired after so many slots, if they end within the longest
/// lab time. It stands apart from its caller, so that it is compiled for any board.
#[inline(never)]
fn retired_in<D: Device>(board: &mut Board<D>, slots: u64) -> Option<u64> {
    if slots / u64::from(board.speed()) > LAST.0 || board.posted() > 0 || board.entered() > 0 {
        return None;
    }
    let start = SlotAt {
        from: Micros(0),
        first: 0,
    };
    let _ = board.turn(start, slots);
    Some(retired_by(board))
}

/// The program of a task, as bytes.
fn program_for(alloc: Global, task: Task) -> Option<Vec<u8>> {
    let text = text_of(alloc, task)?;
    program_of(alloc, text.as_str())
}

/// Runs a task on a new board, and answers how many instructions were retired.
fn run_on<D: Device>(alloc: Global, task: Task, board: &mut Board<D>) -> Option<u64> {
    if task.speed < 1 || task.speed > MOST_SPEED || task.speed % u32::from(harts_of(board)) != 0 {
        return None;
    }
    board.set_speed(task.speed);
    let program = program_for(alloc, task)?;
    load(board, &program)?;
    retired_in(board, task.slots)
}

/// Runs a task on a board with these devices, a UART and a finisher, and answers how many
/// instructions were retired.
fn run<D: Device>(alloc: Global, task: Task, uart: D, finisher: D) -> Option<u64>
    requires uart { D.meaning uart ≡ first_state Kind.Uart }
    requires finisher { D.meaning finisher ≡ first_state Kind.Finisher }
{
    let mut board = board_of(alloc, task.form, uart, finisher)?;
    run_on(alloc, task, &mut board)
}

/// Does a task with devices in boxes, as the laboratory has them.
fn done(alloc: Global, task: Task) -> Option<u64> {
    let uart = Box::new(alloc, Uart::new()).ok()?;
    let finisher = Box::new(alloc, Finisher::new()).ok()?;
    run(alloc, task, Chip::Uart(uart), Chip::Finisher(finisher))
}

fn main(rt: HostRuntime) -> io::Result<ExitCode> {
    let Some(words) = words_of(&rt) else {
        return Ok(ExitCode::from(1));
    };
    let Some(task) = asked(&words) else {
        println!(rt; "{USAGE}")?;
        return Ok(ExitCode::from(2));
    };
    let Some(retired) = done(rt.alloc(), task) else {
        return Ok(ExitCode::from(1));
    };
    println!(rt; "{} {} {}", task.name, task.slots, retired)?;
    Ok(ExitCode::from(0))
}
