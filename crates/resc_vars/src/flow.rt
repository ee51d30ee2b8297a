//! The open bodies of a script, its variables and its macros.
ghost use Rattle.std.specs.Prelude.{◌≡◌, ◌<◌, ◌≤◌, ◌^◌, not, nat_eq, nat_lt, length, false, IfOk, OnOk};
ghost use Rattle.std.specs.Cmp.Lexicographic.{pointwise};
ghost use Rattle.std.specs.Map.{lookup};
ghost use Rattle.std.specs.String.{string_bytes};
ghost use Rattle.lab_num.specs.Depth.{depth_limit};
ghost use Rattle.resc_vars.specs.declared.item.Item.TheVariants as items;
ghost use Rattle.resc_vars.specs.Script.{command_limit, Gives, Refuses, defined, next_of, Says, is_line};
ghost use Rattle.resc_vars.specs.Script.{TakesCommands};
ghost use Rattle.resc_vars.specs.Bodies.{begun, source_of, enter, run_of, Leaves};
ghost use Rattle.resc_vars.specs.Inner.Steps.{Takes, Closes, Sets};
ghost use Rattle.resc_vars.specs.Inner.Steps.{next_with, with_counted, Acts, IsSameBodies};

use crate::answer::{FlowFault, Next};
use crate::body::Body;
use crate::cause::ScriptCause;
use crate::form::Assignment;
use crate::item::{Item, Line, SourceLines, copy_source, source_of};
use crate::lines::TextLines;
use crate::variables::{Variables, command_text, put, set_variable};
use indexmap::IndexMap;
use lab_num::{DEPTH_LIMIT, NoMemory, Text};
use std::alloc::Global;
use std::marker::Model;

/// How many commands a script may have.
const COMMANDS: u32 = 100_000;

/// A script: its open bodies, its variables and its macros.
#[derive(Drop)]
pub struct Flow {
    alloc: Global,
    body: Body,
    outer: Vec<Body>,
    variables: Variables,
    macros: IndexMap<Text, SourceLines>,
    taken: u32,
    ended: bool,
}

impl Model for Flow {
    ghost use Rattle.std.specs.Prelude.{reverse, length, ◌≤◌};
    ghost use Rattle.lab_num.specs.Depth.{depth_limit};
    ghost use Rattle.resc_vars.specs.Script.{State};

    ghost Value = { State };

    ghost view = { λ f. record {
      ended = f.ended;
      current = f.body;
      outer = reverse f.outer.items;
      kept = record {
        variables = f.variables.entries;
        macros = f.macros.entries;
        taken = f.taken;
      };
    } };

    ghost invariant = { λ f. length f.outer.items ≤ depth_limit };
}

impl Flow {
    /// A script with this text, in a file of this name.
    pub fn new(alloc: Global, name: &str, text: String) -> Result<Flow, NoMemory>
        requires { length (string_bytes text) ≤ 2 ^ 24 }
        ensures { IfOk result (λ flow. flow ≡ begun (source_of name.now (string_bytes text))) }
    {
        let source = source_of(alloc, name, text)?;
        Ok(Flow {
            alloc,
            body: Body::of(source),
            outer: Vec::new(alloc),
            variables: IndexMap::new(alloc),
            macros: IndexMap::new(alloc),
            taken: 0,
            ended: false,
        })
    }

    /// How many bodies are open beside the script.
    pub fn depth(&self) -> u8
        ensures value { result ≡ length self.now.outer }
        ensures at_most { result ≤ depth_limit }
    {
        self.outer.len() as u8
    }

    /// The next line with a command. Assignments and macros on the way to it are taken; a body is
    /// closed where no line is left in it.
    ///
    /// `Fault` is answered, for the line that it names, with `Unclosed` for a macro whose body does
    /// not end; with `Commands` where 100,000 commands, assignments and macros were taken before;
    /// and with `Variable` for a variable that is unset.
    #[tactic(auto, using(crate::proofs::Counts::says_counts))]
    pub fn next(&mut self) -> Next
        requires { self.old.ended ≡ false }
        ensures says { Says result self.new (next_of self.old) }
        ensures commands { TakesCommands result self.old self.new }
        ensures ended { self.new.ended ≡ not (is_line result) }
    {
        let next = self.advance();
        match next {
            Next::Line { .. } => next,
            Next::End | Next::Fault { .. } | Next::Memory => {
                self.ended = true;
                next
            }
        }
    }

    fn advance(&mut self) -> Next
        requires { self.old.ended ≡ false }
        ensures says { Says result self.new (next_of self.old) }
        ensures goes_on { self.new.ended ≡ false }
    {
        loop {
            match self.take() {
                Err(_) => return Next::Memory,
                Ok(None) => {
                    if !self.close() {
                        return Next::End;
                    }
                }
                Ok(Some(item)) => {
                    if let Some(next) = self.act(item) {
                        return next;
                    }
                }
            }
        }
    }

    /// Takes the next item of the innermost body.
    fn take(&mut self) -> Result<Option<Item>, NoMemory>
        ensures took { IfOk result (λ item. Takes self.old.current.items item self.new.current.items) }
        ensures rest { self.new ≡ record self.old {
          current = record { file = self.old.current.file; items = self.new.current.items };
        } }
    {
        self.body.take(self.alloc)
    }

    /// Closes the innermost body, if there is one around it.
    fn close(&mut self) -> bool
        ensures { Closes self.old result self.new }
    {
        match self.outer.pop() {
            None => false,
            Some(body) => {
                self.body = body;
                true
            }
        }
    }

    /// Does what an item asks for. An answer ends the search for the next line.
    fn act(&mut self, item: Item) -> Option<Next>
        requires { self.old.ended ≡ false }
        ensures acts { Acts result self.new (next_with item self.old) }
        ensures bodies { IsSameBodies self.old self.new }
    {
        match item {
            Item::Unclosed(line) => Some(self.fault(line, ScriptCause::Unclosed)),
            Item::Command(line) => Some(self.command(line)),
            Item::Malformed(line) => Some(self.malformed(line)),
            Item::Assign { line, assignment } => self.assign(line, assignment),
            Item::Define { line, name, lines } => self.define(line, name, lines),
        }
    }

    fn is_full(&self) -> bool
        ensures { result ≡ not (nat_lt self.now.kept.taken command_limit) }
    {
        self.taken >= COMMANDS
    }

    fn fault(&self, line: u32, cause: ScriptCause) -> Next
        ensures { Says result self.now
            (Refuses self.now.current.file line cause self.now.kept) }
    {
        match Text::of(self.alloc, self.body.file().as_str()) {
            Ok(file) => Next::Fault { file, line, cause },
            Err(_) => Next::Memory,
        }
    }

    /// Counts a command and hands it on with this text.
    fn hand_on(&mut self, line: u32, text: Text) -> Next
        requires goes_on { self.old.ended ≡ false }
        requires within { self.old.kept.taken < command_limit }
        ensures says { Says result self.new
            (Gives self.old.current.file line text (with_counted self.old)) }
        ensures bodies { IsSameBodies self.old self.new }
    {
        match Text::of(self.alloc, self.body.file().as_str()) {
            Err(_) => Next::Memory,
            Ok(file) => {
                self.taken += 1;
                Next::Line { file, line, text }
            }
        }
    }

    fn command(&mut self, line: Line) -> Next
        requires { self.old.ended ≡ false }
        ensures says { Says result self.new (next_with (items.Command line) self.old) }
        ensures bodies { IsSameBodies self.old self.new }
    {
        if self.is_full() {
            return self.fault(line.number, ScriptCause::Commands);
        }
        match command_text(self.alloc, &self.variables, line.text.as_str()) {
            Err(_) => Next::Memory,
            Ok(None) => self.fault(line.number, ScriptCause::Variable),
            Ok(Some(text)) => self.hand_on(line.number, text),
        }
    }

    fn malformed(&mut self, line: Line) -> Next
        requires { self.old.ended ≡ false }
        ensures says { Says result self.new (next_with (items.Malformed line) self.old) }
        ensures bodies { IsSameBodies self.old self.new }
    {
        if self.is_full() {
            return self.fault(line.number, ScriptCause::Commands);
        }
        self.hand_on(line.number, line.text)
    }

    /// Sets a variable, unless its value is a variable that is unset.
    fn set(&mut self, assignment: Assignment) -> Result<bool, NoMemory>
        requires { self.old.kept.taken < command_limit }
        ensures sets { IfOk result (λ set. Sets assignment self.old set self.new) }
        ensures bodies { IsSameBodies self.old self.new }
    {
        let set = set_variable(self.alloc, &mut self.variables, assignment)?;
        if set {
            self.taken += 1;
        }
        Ok(set)
    }

    fn assign(&mut self, line: u32, assignment: Assignment) -> Option<Next>
        requires { self.old.ended ≡ false }
        ensures acts { Acts result self.new (next_with (items.Assign line assignment) self.old) }
        ensures bodies { IsSameBodies self.old self.new }
    {
        if self.is_full() {
            return Some(self.fault(line, ScriptCause::Commands));
        }
        match self.set(assignment) {
            Err(_) => Some(Next::Memory),
            Ok(false) => Some(self.fault(line, ScriptCause::Variable)),
            Ok(true) => None,
        }
    }

    /// Keeps a macro.
    fn keep(&mut self, name: Text, lines: TextLines) -> Result<(), NoMemory>
        requires { self.old.kept.taken < command_limit }
        ensures ok { OnOk result (self.new ≡ record self.old {
          kept = defined self.old.kept self.old.current.file name lines;
        }) }
        ensures bodies { IsSameBodies self.old self.new }
    {
        let file = Text::of(self.alloc, self.body.file().as_str())?;
        put(&mut self.macros, name, SourceLines { file, lines })?;
        self.taken += 1;
        Ok(())
    }

    fn define(&mut self, line: u32, name: Text, lines: TextLines) -> Option<Next>
        requires { self.old.ended ≡ false }
        ensures acts { Acts result self.new (next_with (items.Define line name lines) self.old) }
        ensures bodies { IsSameBodies self.old self.new }
    {
        if self.is_full() {
            return Some(self.fault(line, ScriptCause::Commands));
        }
        match self.keep(name, lines) {
            Err(_) => Some(Next::Memory),
            Ok(()) => None,
        }
    }

    /// Opens the body of a file within the others.
    fn enter(&mut self, source: SourceLines) -> Result<(), FlowFault>
        requires { self.old.ended ≡ false }
        ensures leaves { Leaves result self.old self.new (enter self.old source) }
        ensures goes_on { self.new.ended ≡ false }
    {
        if self.outer.len() >= usize::from(DEPTH_LIMIT) {
            return Err(FlowFault::Depth);
        }
        match self.body.enter(&mut self.outer, source) {
            Ok(()) => Ok(()),
            Err(_) => Err(FlowFault::Memory),
        }
    }

    /// Opens a file with this text, in a file of this name: its lines come next.
    ///
    /// `Depth` is answered where 8 bodies are open beside the script. A refused call changes
    /// nothing.
    pub fn include(&mut self, name: &str, text: String) -> Result<(), FlowFault>
        requires goes_on { self.old.ended ≡ false }
        requires size { length (string_bytes text) ≤ 2 ^ 24 }
        ensures leaves { Leaves result self.old self.new
            (enter self.old (source_of name.now (string_bytes text))) }
        ensures goes_on { self.new.ended ≡ false }
    {
        let source = source_of(self.alloc, name, text)?;
        self.enter(source)
    }

    /// Opens the body of a macro: its lines come next, with their places in the macro's file.
    ///
    /// `Variable` is answered where no macro has this name, and `Depth` where it has, and 8 bodies
    /// are open beside the script. A refused call changes nothing.
    pub fn run_macro(&mut self, name: &str) -> Result<(), FlowFault>
        requires { self.old.ended ≡ false }
        ensures leaves { Leaves result self.old self.new (run_of self.old name.now) }
        ensures goes_on { self.new.ended ≡ false }
    {
        match self.macro_of(name)? {
            None => Err(FlowFault::Variable),
            Some(source) => self.enter(source),
        }
    }

    /// A copy of the macro of this name, if there is one.
    fn macro_of(&self, name: &str) -> Result<Option<SourceLines>, NoMemory>
        ensures { IfOk result (λ found. found ≡ lookup (pointwise nat_eq name.now) self.now.kept.macros) }
    {
        match self.macros.get(name) {
            None => Ok(None),
            Some(source) => Ok(Some(copy_source(self.alloc, source)?)),
        }
    }
}
