//! What an evaluation has computed so far.

use crate::faults::{Fault, Stop};
use crate::frame_machine::bindings::Bound;
use crate::frame_machine::held::{Held, parts_of_slot};
use crate::frame_machine::operands::{Operand, Root};
use crate::frame_machine::parts::{find_part, is_small};
use crate::frame_machine::slots::Slot;
use indexmap::IndexMap;
use std::alloc::{AllocError, Global};
use std::mem;
use wgsl_base::{Items, Stack};
use wgsl_memory::{Instance, Memory, RefInstance, Scope, Step};
use wgsl_shader_type::{Error, LiteralInstance, TpltParam, Type};
use wgsl_words::{BuiltinValue, ShaderStage};

/// What a name of a function's scope stands for.
#[derive(Drop)]
pub enum Local {
    Known(Instance),
    /// Nothing, since its declaration was passed over.
    Unset,
}

/// How far declarations are started.
#[derive(Clone, Copy, Debug, PartialEq, Eq)]
pub enum Start {
    /// Each where it is asked for.
    Nothing,
    /// Consts and assertions.
    Consts,
    /// All, so that overrides and variables are there.
    All,
}

/// How the last statement ended.
#[derive(Clone, Copy, Debug, PartialEq, Eq)]
pub enum Flow {
    Next,
    Break,
    Continue,
    /// Whether there is a value, which then is the uppermost operand.
    Return(bool),
}

/// What there was when a level of names began.
#[derive(Clone, Copy, Drop)]
pub struct Block {
    /// How many cells.
    pub cells: usize,
    /// How many parts of values in cells and by names.
    pub named: u64,
}

/// What an evaluation has computed so far. It names no tree.
#[derive(Drop)]
pub struct Machine {
    pub alloc: Global,
    pub operands: Stack<Operand>,
    pub types: Stack<Type>,
    pub params: Stack<TpltParam>,
    pub numbers: Stack<u32>,
    pub locals: Scope<Local>,
    /// What there was when each level of names began.
    pub blocks: Stack<Block>,
    pub held: Held,
    pub memory: Memory,
    pub slots: Items<Slot>,
    /// The declarations that are being started, the innermost uppermost.
    pub doing: Stack<usize>,
    /// The order in which declarations are started.
    pub order: Items<usize>,
    /// Whether each declaration is a function that is const by the rule.
    pub const_functions: Items<bool>,
    pub stage: ShaderStage,
    pub start: Start,
    pub flow: Flow,
    pub limit: u64,
    /// The steps that are left.
    pub left: u64,
    pub bindings: Items<Bound>,
    pub overrides: IndexMap<String, Instance>,
    /// The built-in values of an entry point that are there.
    pub builtins: Items<(BuiltinValue, Instance)>,
    /// The values at the locations of an entry point.
    pub located: Items<(u32, Instance)>,
    pub fault: Option<Fault>,
}

/// The first limit of steps.
const STEP_LIMIT: u64 = 1_000_000;

impl Machine {
    /// A machine at the const stage that knows nothing of so many declarations.
    pub fn new(alloc: Global, declarations: usize) -> Result<Machine, AllocError> {
        let mut slots = Items::new(alloc);
        for _ in 0..declarations {
            slots.push(Slot::Unknown)?;
        }
        Ok(Machine::with_slots(alloc, slots))
    }

    fn with_slots(alloc: Global, slots: Items<Slot>) -> Machine {
        Machine {
            alloc,
            operands: Stack::new(alloc),
            types: Stack::new(alloc),
            params: Stack::new(alloc),
            numbers: Stack::new(alloc),
            locals: Scope::new(alloc),
            blocks: Stack::new(alloc),
            held: Held::nothing(),
            memory: Memory::new(alloc),
            slots,
            doing: Stack::new(alloc),
            order: Items::new(alloc),
            const_functions: Items::new(alloc),
            stage: ShaderStage::Const,
            start: Start::Nothing,
            flow: Flow::Next,
            limit: STEP_LIMIT,
            left: STEP_LIMIT,
            bindings: Items::new(alloc),
            overrides: IndexMap::new(alloc),
            builtins: Items::new(alloc),
            located: Items::new(alloc),
            fault: None,
        }
    }

    fn begin_block(&mut self) -> Result<(), Stop> {
        let block = Block {
            cells: self.memory.len(),
            named: self.held.named,
        };
        Ok(self.blocks.push(block)?)
    }

    /// Begins a level of names in a function.
    pub fn enter(&mut self) -> Result<(), Stop> {
        self.locals.push()?;
        self.begin_block()
    }

    /// Begins a level that sees the names of the module alone.
    pub fn enter_closed(&mut self) -> Result<(), Stop> {
        self.locals.push_closed()?;
        self.begin_block()
    }

    /// Ends the last level of names, and with it the cells of its variables.
    pub fn leave(&mut self) {
        self.locals.pop();
        if let Some(block) = self.blocks.pop() {
            self.memory.truncate(block.cells);
            self.held.named = block.named;
        }
    }

    /// Ends the last level of names, whose cells stay.
    pub fn leave_cells(&mut self) {
        self.locals.pop();
        let _ = self.blocks.pop();
    }

    /// Whether a name stands for a local.
    pub fn is_local(&self, name: &str) -> bool {
        self.locals.contains(name)
    }

    /// A part of a known value, or that there is no value, is an operand.
    pub fn push(&mut self, operand: Operand) -> Result<(), Stop> {
        Ok(self.operands.push(operand)?)
    }

    pub fn push_value(&mut self, value: Instance) -> Result<(), Stop> {
        match self.hold_value(&value) {
            Ok(()) => Ok(self.operands.push(Operand::Value(value))?),
            Err(stop) => {
                drop(value);
                Err(stop)
            }
        }
    }

    pub fn push_literal(&mut self, value: LiteralInstance) -> Result<(), Stop> {
        self.push_value(Instance::Literal(value))
    }

    pub fn push_type(&mut self, ty: Type) -> Result<(), Stop> {
        match self.hold_type(&ty) {
            Ok(()) => Ok(self.types.push(ty)?),
            Err(stop) => {
                drop(ty);
                Err(stop)
            }
        }
    }

    /// The uppermost type. There always is one, so that none is told as want of memory.
    pub fn pop_type(&mut self) -> Result<Type, Stop> {
        let ty = self.types.pop().ok_or(Stop::OutOfMemory)?;
        self.let_go_of_type(&ty);
        Ok(ty)
    }

    /// The known value at a root.
    pub fn known(&self, root: Root) -> Option<&Instance> {
        match root {
            Root::Local(position) => match self.locals.at(position)? {
                Local::Known(value) => Some(value),
                Local::Unset => None,
            },
            Root::Module(number) => match self.slots.get(number)? {
                Slot::Found(value) => Some(value),
                _ => None,
            },
        }
    }

    /// The structure or the array that an operand of a known value is.
    pub fn part(&self, root: Root, path: &[Step]) -> Option<&Instance> {
        find_part(self.known(root)?, path)
    }

    /// A copy of a part of a known value.
    fn copied_part(&self, root: Root, path: &[Step]) -> Result<Instance, Stop> {
        match self.part(root, path) {
            Some(part) => Ok(part.clone(self.alloc)?),
            None => Err(Stop::OutOfMemory),
        }
    }

    /// The known value at a root is an operand.
    pub fn push_known(&mut self, root: Root) -> Result<(), Stop> {
        let Some(value) = self.known(root) else {
            return Err(Stop::OutOfMemory);
        };
        if is_small(value) {
            let value = value.clone(self.alloc)?;
            self.push_value(value)
        } else {
            let path = Items::new(self.alloc);
            self.push(Operand::Part(root, path))
        }
    }

    /// The uppermost operand as a value or a reference. There always is one, so that none is told as want of memory.
    pub fn pop(&mut self) -> Result<Instance, Stop> {
        match self.pop_operand() {
            Some(Operand::Value(value)) => Ok(value),
            Some(Operand::Part(root, path)) => {
                let part = self.copied_part(root, path.as_slice());
                drop(path);
                part
            }
            _ => Err(Stop::OutOfMemory),
        }
    }

    /// What a reference refers to. An array without a length is only referred to.
    pub fn read(&mut self, reference: &RefInstance) -> Result<Instance, Stop> {
        if !reference.access.is_read() {
            return self.refuse_operation(Error::NotRead);
        }
        if matches!(&reference.ty, Type::Array(_, None)) {
            let ty = reference.ty.clone(self.alloc)?;
            return self.refuse_operation(Error::NotConstructible(ty));
        }
        let read = self.memory.read(self.alloc, reference);
        self.answered(read)
    }

    /// Whether the uppermost operand is a value in itself.
    fn is_loaded(&self) -> bool {
        match self.operands.top() {
            Some(Operand::Value(Instance::Ref(_))) => false,
            Some(Operand::Value(_)) => true,
            _ => false,
        }
    }

    /// The uppermost operand is loaded in place.
    pub fn load(&mut self) -> Result<(), Stop> {
        if self.is_loaded() {
            return Ok(());
        }
        match self.pop()? {
            Instance::Ref(reference) => {
                let read = self.read(&reference);
                drop(reference);
                self.push_value(read?)
            }
            value => self.push_value(value),
        }
    }

    /// The uppermost operands, the lowest first.
    pub fn take(&mut self, count: usize) -> Result<Items<Instance>, Stop> {
        let mut taken = Vec::new(self.alloc);
        for _ in 0..count {
            taken.push(self.pop()?)?;
        }
        taken.reverse();
        Ok(Items::from_vec(taken))
    }

    /// The uppermost types, the lowest first.
    pub fn take_types(&mut self, count: usize) -> Result<Items<Type>, Stop> {
        let mut taken = Vec::new(self.alloc);
        for _ in 0..count {
            taken.push(self.pop_type()?)?;
        }
        taken.reverse();
        Ok(Items::from_vec(taken))
    }

    /// The uppermost template arguments, the lowest first.
    pub fn take_params(&mut self, count: usize) -> Result<Items<TpltParam>, Stop> {
        let mut taken = Vec::new(self.alloc);
        for _ in 0..count {
            taken.push(self.params.pop().ok_or(Stop::OutOfMemory)?)?;
        }
        taken.reverse();
        Ok(Items::from_vec(taken))
    }

    /// The uppermost number.
    pub fn pop_number(&mut self) -> Result<u32, Stop> {
        self.numbers.pop().ok_or(Stop::OutOfMemory)
    }

    /// Sets what is known of a declaration.
    pub fn set_slot(&mut self, number: usize, slot: Slot) {
        if number < self.slots.len() {
            let parts = parts_of_slot(&slot);
            let old = mem::replace(self.slots.get_mut(number), slot);
            self.held.know(parts_of_slot(&old), parts);
            drop(old);
        } else {
            drop(slot);
        }
    }

    /// Whether a declaration is a function that is const by the rule.
    pub fn is_const_function(&self, number: usize) -> bool {
        match self.const_functions.get(number) {
            Some(is_const) => *is_const,
            None => false,
        }
    }

    /// Declarations that were being evaluated when the machine stopped are unknown again, and nothing is left over.
    pub fn recover(&mut self) {
        for number in 0..self.slots.len() {
            if matches!(self.slots.get(number), Some(Slot::Open)) {
                self.set_slot(number, Slot::Unknown);
            }
        }
        self.clear();
        self.doing.clear();
        for _ in 0..self.locals.depth() {
            self.leave();
        }
        self.flow = Flow::Next;
        drop(mem::replace(&mut self.fault, None));
    }
}
