//! A module and what has been computed of it.

use crate::entry::take_inputs;
use std::alloc::{AllocError, Global};
use std::mem;
use wgsl_base::{Items, OrOutOfMemory, Stack};
use wgsl_declarations::TranslationUnit;
use wgsl_eval::{TypedLocals, run_frames};
use wgsl_eval_declarations::{loaded_first, push_entry};
use wgsl_eval_machine::{
    Bound, DeclarationFrame, EvalError, Frame, Frames, Machine, Operand, Slot, Start, Stop,
    TypeFrame, WrittenFrame,
};
use wgsl_eval_names::{Directory, Used, const_functions, start_order, uses_of};
use wgsl_expressions::{ExpressionNode, TypeExpression};
use wgsl_instance::Instance;
use wgsl_memory::Inputs;
use wgsl_shader_type::Type;
use wgsl_words::{AccessMode, AddressSpace, ShaderStage};

/// A linked module and what has been computed of it.
#[derive(Drop)]
pub struct Context<'s> {
    unit: &'s TranslationUnit,
    directory: Directory<'s>,
    uses: Items<Used>,
    machine: Machine,
    place: Option<usize>,
}

impl<'s> Context<'s> {
    /// A module of which nothing is computed, at the const stage, with a limit of 1,000,000 steps.
    pub fn new(alloc: Global, unit: &'s TranslationUnit) -> Result<Context<'s>, AllocError> {
        let directory = Directory::new(alloc, unit)?;
        let uses = uses_of(alloc, &directory, unit)?;
        let mut machine = Machine::new(alloc, directory.len())?;
        let consts = const_functions(alloc, &directory, uses.as_slice())?;
        drop(mem::replace(&mut machine.const_functions, consts));
        Ok(Context {
            unit,
            directory,
            uses,
            machine,
            place: None,
        })
    }

    /// The module.
    pub fn source(&self) -> &'s TranslationUnit {
        self.unit
    }

    /// At most so many steps are taken from now on. A step is a loop's body entered or a function called.
    pub fn set_step_limit(&mut self, limit: u64) {
        self.machine.limit = limit;
        self.machine.left = limit;
    }

    /// How many steps have been taken since the limit was set.
    pub fn steps(&self) -> u64 {
        self.machine.limit.saturating_sub(self.machine.left)
    }

    /// Expressions are evaluated at this stage from now on.
    pub fn set_stage(&mut self, stage: ShaderStage) {
        self.machine.stage = stage;
    }

    /// Hands in the value of a resource. The last one of equal numbers holds.
    pub fn add_binding(
        &mut self,
        group: u32,
        binding: u32,
        space: AddressSpace,
        access: AccessMode,
        value: Instance,
    ) -> Result<(), AllocError> {
        self.machine.add_binding(Bound {
            group,
            binding,
            space,
            access,
            value,
            cell: None,
        })
    }

    /// Hands in the value of an override, by its name. The last one of a name holds; a name of no override is ignored.
    pub fn add_override(&mut self, name: &str, value: Instance) -> Result<(), AllocError> {
        self.machine.add_override(name, value)
    }

    /// The value of a resource, as it is by now.
    pub fn binding(&self, group: u32, binding: u32) -> Option<&Instance> {
        self.machine.binding(group, binding)
    }

    /// The value of a const or an override that was started.
    pub fn value(&self, name: &str) -> Option<&Instance> {
        match self.machine.slots.get(self.directory.number(name)?)? {
            Slot::Found(value) => Some(value),
            _ => None,
        }
    }

    /// The number of the innermost declaration that was being started at the last fault, counted from 0 in text order.
    pub fn place(&self) -> Option<usize> {
        self.place
    }

    fn failed(&mut self, stop: Stop) -> EvalError {
        self.place = self.machine.doing.top().copied();
        match (stop, mem::replace(&mut self.machine.fault, None)) {
            (Stop::Fault, Some(fault)) => OrOutOfMemory::Error(fault),
            (_, fault) => {
                drop(fault);
                OrOutOfMemory::OutOfMemory
            }
        }
    }

    fn run_frames(&mut self, frames: &mut Frames<'s>) -> Result<(), EvalError> {
        let mut works = Stack::new(self.machine.alloc);
        let ran = run_frames(
            self.unit,
            &self.directory,
            &mut self.machine,
            frames,
            &mut works,
            TypedLocals::Deferred,
        );
        drop(works);
        match ran {
            Ok(()) => Ok(()),
            Err(stop) => Err(self.failed(stop)),
        }
    }

    fn run_frame(&mut self, frame: Frame<'s>) -> Result<(), EvalError> {
        let mut frames = Stack::new(self.machine.alloc);
        frames.push(frame)?;
        self.run_frames(&mut frames)
    }

    /// Consts and assertions, or all declarations, get their values, in text order, each after those that it reaches.
    pub fn start(&mut self, start: Start) -> Result<(), EvalError> {
        self.machine.recover();
        self.place = None;
        self.machine.start = start;
        if start == Start::Nothing {
            return Ok(());
        }
        let order = start_order(
            self.machine.alloc,
            &self.directory,
            self.uses.as_slice(),
            start == Start::All,
        )?;
        drop(mem::replace(&mut self.machine.order, order));
        self.run_frame(Frame::Declaration(DeclarationFrame::Order(0)))
    }

    fn answer(&mut self) -> Result<Option<Instance>, EvalError> {
        match self.machine.pop_operand() {
            Some(Operand::Value(value)) => Ok(Some(value)),
            Some(Operand::Void) => Ok(None),
            other => {
                drop(other);
                Err(OrOutOfMemory::OutOfMemory)
            }
        }
    }

    /// Runs the entry point of a name, at the exec stage. Its answer, where it has one.
    pub fn exec_entrypoint(
        &mut self,
        name: &str,
        inputs: &Inputs,
    ) -> Result<Option<Instance>, EvalError> {
        self.machine.recover();
        self.place = self.directory.number(name);
        take_inputs(&mut self.machine, inputs)?;
        let stage = self.machine.stage;
        let mut frames = Stack::new(self.machine.alloc);
        let pushed = push_entry(&self.directory, &mut self.machine, &mut frames, name);
        let ran = match pushed {
            Ok(()) => self.run_frames(&mut frames),
            Err(stop) => Err(self.failed(stop)),
        };
        drop(frames);
        self.machine.stage = stage;
        ran?;
        self.answer()
    }

    /// The value of an expression, with the names of the module, at the context's stage.
    pub fn eval_value(&mut self, node: &'s ExpressionNode) -> Result<Instance, EvalError> {
        self.machine.recover();
        let mut frames = Stack::new(self.machine.alloc);
        let pushed = loaded_first(&mut frames, node);
        let ran = match pushed {
            Ok(()) => self.run_frames(&mut frames),
            Err(stop) => Err(self.failed(stop)),
        };
        drop(frames);
        ran?;
        match self.answer()? {
            Some(value) => Ok(value),
            None => Err(OrOutOfMemory::OutOfMemory),
        }
    }

    fn type_answer(&mut self) -> Result<Type, EvalError> {
        match self.machine.pop_type() {
            Ok(ty) => Ok(ty),
            Err(_) => Err(OrOutOfMemory::OutOfMemory),
        }
    }

    /// The type of an expression, a reference where it is one, at the context's stage.
    pub fn eval_ty(&mut self, node: &'s ExpressionNode) -> Result<Type, EvalError> {
        self.machine.recover();
        self.run_frame(Frame::Type(TypeFrame::Node(node)))?;
        self.type_answer()
    }

    /// The type that a type expression means, with the names of the module.
    pub fn ty_eval_ty(&mut self, ty: &'s TypeExpression) -> Result<Type, EvalError> {
        self.machine.recover();
        self.run_frame(Frame::Written(WrittenFrame::Type(ty)))?;
        self.type_answer()
    }
}
