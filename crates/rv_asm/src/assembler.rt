//! From a text to its words: once over the lines for the labels, and once for the words.
ghost use Rattle.std.specs.Prelude.{◌≡◌, ◌+◌, ◌^◌, ◌≤◌, Some, map};
ghost use Rattle.std.specs.Prelude.{length, IfOk, OnOk};
ghost use Rattle.rv_asm.specs.Places.{place_in, HasPlaces, with_label};
ghost use Rattle.rv_asm.specs.Lines.{label_of};
ghost use Rattle.rv_asm.specs.Program.{lines_of, Assembles};
ghost use Rattle.rv_asm.specs.Inner.Scan.{place_from, word_from, at_line, words_from, Pushes, Gives};

use crate::fault::AsmFault;
use crate::lines::{gives_word, label_of, line_word};
use std::alloc::{AllocError, Global};
use std::collections::HashMap;

/// The lines of a text.
fn lines_of(alloc: Global, text: &str) -> Result<Vec<&str>, AllocError>
    ensures { IfOk result (λ lines. map (λ line. line.now) lines.items ≡ lines_of text.now) }
{
    text.split('\n').collect(alloc)
}

/// Gives the line's label this address, unless it has one.
fn add_label_of<'a>(
    labels: &mut HashMap<&'a str, u32>,
    line: &'a str,
    address: u32,
) -> Result<(), AllocError>
    ensures { OnOk result
        (HasPlaces labels.new (with_label (place_in labels.old) (label_of line.now) address)) }
{
    let Some(label) = label_of(line) else {
        return Ok(());
    };
    if labels.contains_key(&label) {
        return Ok(());
    }
    labels.insert(label, address)?;
    Ok(())
}

/// The address of each label, where the first line that gives it stands.
fn labels_of<'a>(alloc: Global, lines: &[&'a str]) -> Result<HashMap<&'a str, u32>, AllocError>
    requires { length lines.now ≤ 2 ^ 24 + 1 }
    ensures { IfOk result
        (λ labels. HasPlaces labels (place_from 0 (map (λ line. line.now) lines.now))) }
{
    let mut labels = HashMap::new(alloc);
    let mut address = 0;
    for line in lines {
        if gives_word(line) {
            add_label_of(&mut labels, line, address)?;
            address += 4;
        }
    }
    Ok(labels)
}

/// Puts the word of the line with this number after the others.
fn push_line(
    words: &mut Vec<u32>,
    labels: &HashMap<&str, u32>,
    n: u32,
    address: u32,
    line: &str,
) -> Result<(), AsmFault>
    ensures { Pushes words.old.items words.new.items
        (at_line n (word_from (place_in labels.now) address line.now)) result }
{
    match line_word(labels, address, line) {
        Ok(word) => match words.push(word) {
            Ok(()) => Ok(()),
            Err(_) => Err(AsmFault::Memory),
        },
        Err(cause) => Err(AsmFault::Line { n, cause }),
    }
}

/// The words of the lines.
fn words_of(
    alloc: Global,
    labels: &HashMap<&str, u32>,
    lines: &[&str],
) -> Result<Vec<u32>, AsmFault>
    requires { length lines.now ≤ 2 ^ 24 + 1 }
    ensures { Gives result
        (words_from (place_in labels.now) 1 0 (map (λ line. line.now) lines.now)) }
{
    let mut words = Vec::new(alloc);
    let mut address = 0;
    for (i, line) in lines.iter().enumerate() {
        if gives_word(line) {
            push_line(&mut words, labels, i as u32 + 1, address, line)?;
            address += 4;
        }
    }
    Ok(words)
}

/// The words of a text's lines, in order.
///
/// A line ends at an LF or at the text's end. `#` begins a comment, and blanks are space and tab; a
/// line with nothing else gives no word. Any other line has a label or not, `label:`, and then one
/// instruction that `decode` knows, or `.word n`, with its operands parted by commas: registers
/// `x0` to `x31`; numbers, decimal or hexadecimal after `0x`, with or without `-`; `n(xR)` at
/// loads, stores and `jalr`; a label or an offset in bytes at branches and `jal`; the upper 20 bits
/// at `lui` and `auipc`; the number of a control and status register between two operands. Fences
/// stand without operands and have all fields 0.
///
/// `Line` is answered for the first line with a fault, and `Memory` only where memory runs out.
pub fn assemble(alloc: Global, text: &str) -> Result<Vec<u32>, AsmFault>
    requires { length text.now ≤ 2 ^ 24 }
    ensures { Assembles text.now result }
{
    let Ok(lines) = lines_of(alloc, text) else {
        return Err(AsmFault::Memory);
    };
    let Ok(labels) = labels_of(alloc, &lines) else {
        return Err(AsmFault::Memory);
    };
    words_of(alloc, &labels, &lines)
}
