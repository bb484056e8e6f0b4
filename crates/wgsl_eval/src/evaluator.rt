//! What a module is asked while it is lowered: values and types of trees that stand in the scope that the evaluator has, each with all
//! steps of the limit. A fault leaves that scope as it was.

use crate::running::{TypedLocals, run_frames};
use std::alloc::{AllocError, Global};
use std::mem;
use wgsl_base::{Items, OrOutOfMemory, Stack};
use wgsl_declarations::TranslationUnit;
use wgsl_eval_declarations::follow;
use wgsl_eval_machine::{
    DeclarationFrame, EvalError, Fault, Flow, Frame, Frames, Local, Machine, NameFault, Operand,
    PlainFault, Slot, Start, Stop, TypeFrame, ValueFrame, WrittenFrame,
};
use wgsl_eval_names::{Directory, Target, Used, const_functions, start_order, uses_of};
use wgsl_eval_statements::{StatementFrame, Works};
use wgsl_expressions::{ExpressionNode, TypeExpression};
use wgsl_instance::Instance;
use wgsl_shader_type::{Error, Type};
use wgsl_simple_statements::Declaration;
use wgsl_statements::StatementNode;
use wgsl_words::ShaderStage;

/// A declaration that was being evaluated is unknown again.
fn reopen(machine: &mut Machine, number: usize) {
    if matches!(machine.slots.get(number), Some(Slot::Open)) {
        machine.set_slot(number, Slot::Unknown);
    }
}

/// Nothing is left over of an evaluation that stopped, and no level of names above so many.
fn clean_up(machine: &mut Machine, frames: &mut Frames<'_>, depth: usize) {
    for _ in 0..frames.len() {
        if let Some(Frame::Written(WrittenFrame::Struct(number, _))) = frames.pop() {
            reopen(machine, number);
        }
    }
    for _ in 0..machine.doing.len() {
        if let Some(number) = machine.doing.pop() {
            reopen(machine, number);
        }
    }
    for _ in depth..machine.locals.depth() {
        machine.leave();
    }
    machine.clear();
    machine.flow = Flow::Next;
    machine.stage = ShaderStage::Const;
}

/// A machine that knows which functions are const and may take so many steps.
fn prepared(machine: Machine, consts: Items<bool>, max_steps: u64) -> Machine {
    let mut machine = machine;
    drop(mem::replace(&mut machine.const_functions, consts));
    machine.limit = max_steps;
    machine.left = max_steps;
    machine
}

/// Whether an expression with this fault has no value at the const stage, but may be right.
fn means_no_value(fault: &Fault) -> bool {
    matches!(
        fault,
        Fault::NotAccessible(_, _) | Fault::Name(NameFault::NotConst, _)
    )
}

/// What the declarations of a module use, and which of its functions are const by the rule.
#[derive(Drop)]
pub struct UnitUses {
    uses: Items<Used>,
    /// For each declaration, by its number.
    consts: Items<bool>,
}

impl UnitUses {
    /// Reads a module.
    pub fn new(alloc: Global, unit: &TranslationUnit) -> Result<UnitUses, AllocError> {
        let directory = Directory::new(alloc, unit)?;
        let uses = uses_of(alloc, &directory, unit)?;
        let consts = const_functions(alloc, &directory, uses.as_slice())?;
        Ok(UnitUses { uses, consts })
    }

    /// Whether a declaration, by its number, is a function that is const by the rule.
    pub fn is_const_function(&self, number: usize) -> bool {
        match self.consts.get(number) {
            Some(is_const) => *is_const,
            None => false,
        }
    }
}

/// A linked module, what has been computed of it, and a scope of a function in it. A name of that scope stands for a value, or for one of
/// which the type alone is known, which isn't accessible.
#[derive(Drop)]
pub struct Evaluator<'s> {
    unit: &'s TranslationUnit,
    directory: Directory<'s>,
    uses: Items<Used>,
    machine: Machine,
    place: Option<usize>,
}

impl<'s> Evaluator<'s> {
    /// A module of which nothing is computed, with the names of the module alone in scope. Each evaluation may take so many steps. The bodies
    /// of functions that are not const, by the rule or by their attribute, are not read.
    pub fn new(
        alloc: Global,
        unit: &'s TranslationUnit,
        uses: UnitUses,
        max_steps: u64,
    ) -> Result<Evaluator<'s>, AllocError> {
        let UnitUses { uses, consts } = uses;
        let directory = Directory::new(alloc, unit)?;
        match Machine::new(alloc, directory.len()) {
            Err(error) => Err(error),
            Ok(machine) => Ok(Evaluator {
                unit,
                directory,
                uses,
                machine: prepared(machine, consts, max_steps),
                place: None,
            }),
        }
    }

    /// The number of the innermost declaration that was being started at the last fault, counted from 0 in text order.
    pub fn place(&self) -> Option<usize> {
        self.place
    }

    /// The allocator.
    pub fn alloc(&self) -> Global {
        self.machine.alloc
    }

    /// The declarations of the module.
    pub fn directory(&self) -> &Directory<'s> {
        &self.directory
    }

    /// Whether a declaration, by its number, is a function that is const by the rule.
    pub fn is_const_function(&self, number: usize) -> bool {
        self.machine.is_const_function(number)
    }

    /// Begins a level of names in a function.
    pub fn enter(&mut self) -> Result<(), Stop> {
        self.machine.enter()
    }

    /// Ends the last level of names.
    pub fn leave(&mut self) {
        self.machine.leave();
    }

    /// A name stands for a value of which the type alone is known, until its level ends.
    pub fn defer(&mut self, name: &str, ty: Type) -> Result<(), Stop> {
        let local = Local::Known(Instance::Deferred(ty));
        let alloc = self.machine.alloc;
        if self.machine.locals.add(alloc, name, local)? {
            Ok(())
        } else {
            self.machine.refuse_name(NameFault::DuplicateDecl, name)
        }
    }

    /// What a type expression means, aliases followed. A ring of aliases is refused.
    pub fn target<'n>(&mut self, ty: &'n TypeExpression) -> Result<Target<'n>, Stop>
    where
        's: 'n,
    {
        follow(&self.directory, &mut self.machine, ty)
    }

    /// Stops by a fault that says no more than its kind.
    pub fn refuse_plain<T>(&mut self, kind: PlainFault) -> Result<T, Stop> {
        self.machine.refuse_plain(kind)
    }

    /// What an operation answers, or its refusal.
    pub fn answered<T>(&mut self, answer: Result<T, Error>) -> Result<T, Stop> {
        self.machine.answered(answer)
    }

    /// The error of a stop.
    pub fn error_of(&mut self, stop: Stop) -> EvalError {
        match (stop, mem::replace(&mut self.machine.fault, None)) {
            (Stop::Fault, Some(fault)) => OrOutOfMemory::Error(fault),
            (_, fault) => {
                drop(fault);
                OrOutOfMemory::OutOfMemory
            }
        }
    }

    /// Does what is left to do, with all steps, at the const stage.
    fn ask<'n>(
        &mut self,
        unit: &'n TranslationUnit,
        frames: &mut Frames<'n>,
        works: &mut Works<'n>,
    ) -> Result<(), Stop>
    where
        's: 'n,
    {
        let depth = self.machine.locals.depth();
        self.machine.left = self.machine.limit;
        self.machine.stage = ShaderStage::Const;
        let ran = run_frames(
            unit,
            &self.directory,
            &mut self.machine,
            frames,
            works,
            TypedLocals::Refused,
        );
        if ran.is_err() {
            self.place = self.machine.doing.top().copied();
            clean_up(&mut self.machine, frames, depth);
        }
        ran
    }

    fn ask_frame<'n>(&mut self, frame: Frame<'n>) -> Result<(), Stop>
    where
        's: 'n,
    {
        let mut frames = Stack::new(self.machine.alloc);
        let mut works = Stack::new(self.machine.alloc);
        frames.push(frame)?;
        let unit = self.unit;
        let ran = self.ask(unit, &mut frames, &mut works);
        drop(frames);
        drop(works);
        ran
    }

    /// Does one thing, and another behind it.
    fn ask_both<'n>(&mut self, first: Frame<'n>, second: Frame<'n>) -> Result<(), Stop>
    where
        's: 'n,
    {
        let mut frames = Stack::new(self.machine.alloc);
        let mut works = Stack::new(self.machine.alloc);
        frames.push(second)?;
        frames.push(first)?;
        let unit = self.unit;
        let ran = self.ask(unit, &mut frames, &mut works);
        drop(frames);
        drop(works);
        ran
    }

    /// Consts and assertions get their values, each with all steps, in text order, each after those that it reaches.
    pub fn start_each(&mut self) -> Result<(), Stop> {
        self.machine.start = Start::Consts;
        let order = start_order(
            self.machine.alloc,
            &self.directory,
            self.uses.as_slice(),
            false,
        )?;
        for number in order.as_slice() {
            self.ask_frame(Frame::Declaration(DeclarationFrame::Start(*number)))?;
        }
        Ok(())
    }

    fn value_answer(&mut self) -> Result<Instance, Stop> {
        match self.machine.pop_operand() {
            Some(Operand::Value(value)) => Ok(value),
            other => {
                drop(other);
                Err(Stop::OutOfMemory)
            }
        }
    }

    fn value_of(&mut self, node: &ExpressionNode) -> Result<Instance, Stop> {
        self.ask_both(
            Frame::Value(ValueFrame::Node(node)),
            Frame::Value(ValueFrame::Load),
        )?;
        self.value_answer()
    }

    /// What stopped an attempt is forgotten, where it says that there is no value, or where any fault does. Where memory was refused, that
    /// stays so.
    pub fn forgiven<T>(&mut self, made: Result<T, Stop>, is_any: bool) -> Result<Option<T>, Stop> {
        match made {
            Ok(value) => Ok(Some(value)),
            Err(Stop::OutOfMemory) => Err(Stop::OutOfMemory),
            Err(Stop::Fault) => {
                let is_forgiven = match &self.machine.fault {
                    Some(fault) => is_any || means_no_value(fault),
                    None => false,
                };
                if is_forgiven {
                    drop(mem::replace(&mut self.machine.fault, None));
                    Ok(None)
                } else {
                    Err(Stop::Fault)
                }
            }
        }
    }

    /// The const value of an expression. It has none where it uses what isn't known at the const stage.
    pub fn const_value(&mut self, node: &ExpressionNode) -> Result<Option<Instance>, Stop> {
        let made = self.value_of(node);
        self.forgiven(made, false)
    }

    /// The const value of an expression, if it has one: no fault is refused.
    pub fn any_value(&mut self, node: &ExpressionNode) -> Result<Option<Instance>, Stop> {
        let made = self.value_of(node);
        self.forgiven(made, true)
    }

    fn type_found(&mut self, ran: Result<(), Stop>) -> Result<Type, Stop> {
        ran?;
        self.machine.pop_type()
    }

    /// The type of the value of an expression.
    pub fn value_type(&mut self, node: &ExpressionNode) -> Result<Type, Stop> {
        let ran = self.ask_both(
            Frame::Type(TypeFrame::Node(node)),
            Frame::Type(TypeFrame::Load),
        );
        self.type_found(ran)
    }

    /// The type that a type expression means, with the names that are in scope.
    pub fn meant_type(&mut self, ty: &TypeExpression) -> Result<Type, Stop> {
        let ran = self.ask_frame(Frame::Written(WrittenFrame::Type(ty)));
        self.type_found(ran)
    }

    /// The type that a type expression means, if it means one: no fault is refused.
    pub fn any_type(&mut self, ty: &TypeExpression) -> Result<Option<Type>, Stop> {
        let made = self.meant_type(ty);
        self.forgiven(made, true)
    }

    /// The type that a type expression means with the names of the module alone.
    pub fn module_type(&mut self, ty: &TypeExpression) -> Result<Type, Stop> {
        let ran = self.ask_frame(Frame::Written(WrittenFrame::InModule(ty)));
        self.type_found(ran)
    }

    /// The type of a declaration: the written one, else its initializer's, concrete but for a const.
    pub fn declared_type(&mut self, x: &Declaration) -> Result<Type, Stop> {
        let ran = self.ask_frame(Frame::Declaration(DeclarationFrame::Type(x)));
        self.type_found(ran)
    }

    /// Does a statement of the scope at the const stage: a const gets its value, an assertion is tested.
    pub fn do_statement(&mut self, node: &StatementNode) -> Result<(), Stop> {
        let mut frames = Stack::new(self.machine.alloc);
        let mut works = Stack::new(self.machine.alloc);
        frames.push(Frame::Body)?;
        works.push(StatementFrame::End)?;
        works.push(StatementFrame::Statement(node))?;
        let unit = self.unit;
        let ran = self.ask(unit, &mut frames, &mut works);
        drop(frames);
        drop(works);
        ran
    }
}
