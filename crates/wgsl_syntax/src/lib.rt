//! The syntax trees of modules, places in their texts, and the paths of modules: what is asked of them and done with them, and the laws
//! of their `==`. It has no code of its own, and passes on what users call of the crates below.
#![tactic(auto)]

pub use wgsl_base::Indent;
pub use wgsl_declarations::{
    DiagnosticDirective, EnableDirective, FormalParameter, Function, GlobalDeclaration,
    GlobalDeclarationNode, GlobalDirective, Import, ImportContent, ImportItem, ImportStatement,
    RequiresDirective, Struct, StructMember, StructMemberNode, TranslationUnit, TypeAlias, let_go,
    retain_declarations,
};
pub use wgsl_empty_items::{
    equality, remove_voids, remove_voids_in_block, remove_voids_in_declaration,
    remove_voids_in_statement,
};
pub use wgsl_expressions::{
    Attribute, AttributeNode, Attributes, BinaryExpression, BinaryOperator, Boxed, CloneIn,
    CustomAttribute, DiagnosticAttribute, Expression, ExpressionNode, FromIn, FunctionCall, Ident,
    IndexingExpression, InterpolateAttribute, Items, LiteralExpression, ModulePath,
    NamedComponentExpression, ParenthesizedExpression, PathOrigin, Span, Spanned, TemplateArg,
    TemplateArgs, Text, TypeExpression, UnaryExpression, UnaryOperator, WorkgroupSizeAttribute,
};
pub use wgsl_nodes::{Header, SyntaxNode};
pub use wgsl_path::ModulePathParseError;
pub use wgsl_statements::{
    AssignmentStatement, BreakIfStatement, BreakStatement, CaseSelector, CompoundStatement,
    ConstAssert, ConstAssertStatement, ContinueStatement, ContinuingStatement, Declaration,
    DeclarationKind, DeclarationStatement, DecrementStatement, DiscardStatement, ElseClause,
    ElseIfClause, ForStatement, FunctionCallStatement, IfClause, IfStatement, IncrementStatement,
    LoopStatement, ReturnStatement, Statement, StatementNode, SwitchClause, SwitchStatement,
    WhileStatement, clear_statement, retain_statements,
};
pub use wgsl_words::{
    AccessMode, AddressSpace, AssignmentOperator, BuiltinValue, DiagnosticSeverity,
    InterpolationSampling, InterpolationType,
};
