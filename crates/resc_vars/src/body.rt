//! An open body.
ghost use Rattle.std.specs.Prelude.{◌≡◌, ◌∷◌, ◌++◌, [], IfOk, OnOk, OnErr};
ghost use Rattle.resc_vars.specs.Inner.Steps.{Takes};
ghost use Rattle.resc_vars.specs.Bodies.{opened};

use crate::item::{Item, SourceLines};
use lab_num::{NoMemory, Text};
use std::alloc::Global;
use std::marker::Model;

/// The lines of a body that are not taken yet.
#[derive(Drop)]
pub(crate) struct Body {
    source: SourceLines,
}

impl Model for Body {
    ghost use Rattle.resc_vars.specs.Script.{Open};
    ghost use Rattle.resc_vars.specs.Bodies.{opened};

    ghost Value = { Open };

    ghost view = { λ b. opened b.source };
}

impl Body {
    pub(crate) fn of(source: SourceLines) -> Body
        ensures { result ≡ opened source }
    {
        Body { source }
    }

    pub(crate) fn file(&self) -> &Text
        ensures { result.now ≡ self.now.file }
    {
        &self.source.file
    }

    /// Takes the next item.
    pub(crate) fn take(&mut self, alloc: Global) -> Result<Option<Item>, NoMemory>
        ensures took { IfOk result (λ item. Takes self.old.items item self.new.items) }
        ensures file { self.new.file ≡ self.old.file }
    {
        self.source.lines.take_item(alloc)
    }

    /// Opens the body of a file, and puts the one that was open on those around it.
    pub(crate) fn enter(
        &mut self,
        outer: &mut Vec<Body>,
        source: SourceLines,
    ) -> Result<(), NoMemory>
        ensures body { OnOk result (self.new ≡ opened source) }
        ensures outer { OnOk result (outer.new.items ≡ outer.old.items ++ self.old ∷ []) }
        ensures refused { OnErr result ((self.new ≡ self.old) × (outer.new.items ≡ outer.old.items)) }
    {
        let around = std::mem::replace(self, Body::of(source));
        match outer.push(around) {
            Ok(()) => Ok(()),
            Err(back) => {
                *self = back.value;
                Err(NoMemory)
            }
        }
    }
}
