//! The text of a tree that stands alone: its first line at the outermost level. Statements end with a line break, blocks and
//! clauses without.

ghost use Rattle.std.specs.Prelude.{◌≡◌, ◌++◌, Some, map, codes};
ghost use Rattle.wgsl_simple_statements.specs.ExpressionsView.{node_tree};
ghost use Rattle.wgsl_simple_statements.specs.View.{selector_tree};
ghost use Rattle.wgsl_simple_statements.specs.Print.{case_head};
ghost use Rattle.wgsl_statements.specs.View.{statement_tree, block_tree, if_layer, switch_layer, continuing_layer, loop_layer, for_layer, while_layer};
ghost use Rattle.wgsl_statements.specs.Print.{head_text, block_text, continuing_text, stm_text, lines_text};

use crate::print::{
    write_block, write_continuing, write_for, write_if, write_loop, write_statement, write_switch,
    write_while,
};
use crate::statement::{
    CompoundStatement, ContinuingStatement, ElseClause, ElseIfClause, ForStatement, IfClause,
    IfStatement, LoopStatement, Statement, SwitchClause, SwitchStatement, WhileStatement,
};
use std::fmt;
use wgsl_simple_statements::{write_case_head, write_head};

impl fmt::Display for Statement {
    ghost output = { λ x. Some (lines_text 0 (statement_tree x)) };

    fn fmt<W: fmt::Write>(&self, f: &mut fmt::Formatter<W>) -> fmt::Result {
        write_statement(self, 0, f)
    }
}

impl fmt::Display for CompoundStatement {
    ghost output = { λ x. Some (block_text 0 (block_tree x)) };

    fn fmt<W: fmt::Write>(&self, f: &mut fmt::Formatter<W>) -> fmt::Result {
        write_block(self, 0, f)
    }
}

impl fmt::Display for IfStatement {
    ghost output = { λ x. Some (stm_text 0 (if_layer statement_tree x)) };

    fn fmt<W: fmt::Write>(&self, f: &mut fmt::Formatter<W>) -> fmt::Result {
        write_if(self, 0, f)?;
        f.write_str("\n")
    }
}

impl fmt::Display for SwitchStatement {
    ghost output = { λ x. Some (stm_text 0 (switch_layer statement_tree x)) };

    fn fmt<W: fmt::Write>(&self, f: &mut fmt::Formatter<W>) -> fmt::Result {
        write_switch(self, 0, f)?;
        f.write_str("\n")
    }
}

impl fmt::Display for LoopStatement {
    ghost output = { λ x. Some (stm_text 0 (loop_layer statement_tree x)) };

    fn fmt<W: fmt::Write>(&self, f: &mut fmt::Formatter<W>) -> fmt::Result {
        write_loop(self, 0, f)?;
        f.write_str("\n")
    }
}

impl fmt::Display for ForStatement {
    ghost output = { λ x. Some (stm_text 0 (for_layer statement_tree x)) };

    fn fmt<W: fmt::Write>(&self, f: &mut fmt::Formatter<W>) -> fmt::Result {
        write_for(self, 0, f)?;
        f.write_str("\n")
    }
}

impl fmt::Display for WhileStatement {
    ghost output = { λ x. Some (stm_text 0 (while_layer statement_tree x)) };

    fn fmt<W: fmt::Write>(&self, f: &mut fmt::Formatter<W>) -> fmt::Result {
        write_while(self, 0, f)?;
        f.write_str("\n")
    }
}

impl fmt::Display for ContinuingStatement {
    ghost output = { λ x. Some (continuing_text 0 (continuing_layer statement_tree (Some x))) };

    fn fmt<W: fmt::Write>(&self, f: &mut fmt::Formatter<W>) -> fmt::Result {
        write_continuing(self, 0, f)
    }
}

impl fmt::Display for IfClause {
    ghost output = { λ x. Some (head_text (codes "if ") (node_tree x.expression) ++ block_text 0 (block_tree x.body)) };

    fn fmt<W: fmt::Write>(&self, f: &mut fmt::Formatter<W>) -> fmt::Result {
        write_head("if ", &self.expression, f)?;
        write_block(&self.body, 0, f)
    }
}

impl fmt::Display for ElseIfClause {
    ghost output = { λ x. Some (head_text (codes "else if ") (node_tree x.expression) ++ block_text 0 (block_tree x.body)) };

    fn fmt<W: fmt::Write>(&self, f: &mut fmt::Formatter<W>) -> fmt::Result {
        write_head("else if ", &self.expression, f)?;
        write_block(&self.body, 0, f)
    }
}

impl fmt::Display for ElseClause {
    ghost output = { λ x. Some (codes "else " ++ block_text 0 (block_tree x.body)) };

    fn fmt<W: fmt::Write>(&self, f: &mut fmt::Formatter<W>) -> fmt::Result {
        f.write_str("else ")?;
        write_block(&self.body, 0, f)
    }
}

impl fmt::Display for SwitchClause {
    ghost output = { λ x. Some (case_head (map selector_tree x.case_selectors) ++ codes ": " ++ block_text 0 (block_tree x.body)) };

    fn fmt<W: fmt::Write>(&self, f: &mut fmt::Formatter<W>) -> fmt::Result {
        write_case_head(self.case_selectors.as_slice(), f)?;
        f.write_str(": ")?;
        write_block(&self.body, 0, f)
    }
}
