//! The public names of the project, each once by the crate that users name: one that goes missing is an error here. Methods come with their
//! types and traits. `docs/DECISIONS.md` lists what is called otherwise.

mod of_wgsl_types {
    pub use wgsl_types::{
        AccessMode, AddressSpace, ArrayTemplate, AssignmentOperator, BinaryOperator, BuiltinValue,
        CallSignature, Convert, DiagnosticSeverity, Enumerant, Error, InterpolationSampling,
        InterpolationType, LiteralInstance, PtrTemplate, ShaderStage, ShaderType, StructMemberType,
        StructType, TpltParam, Ty, Type, TypeOperators, UnaryOperator, VecTemplate, array_t,
        builtin_type, conversion_rank, convert, convert_all, convert_all_inner_to, convert_all_to,
        convert_all_ty, convert_inner, convert_ty, is_ctor, type_binary_op, type_ctor,
        type_unary_op, typecheck_struct_ctor, vec_t,
    };
}

mod of_wgsl_syntax {
    pub use wgsl_syntax::{
        AssignmentStatement, Attribute, AttributeNode, Attributes, BinaryExpression,
        BreakIfStatement, BreakStatement, CaseSelector, CloneIn, CompoundStatement, ConstAssert,
        ConstAssertStatement, ContinueStatement, ContinuingStatement, CustomAttribute, Declaration,
        DeclarationKind, DeclarationStatement, DecrementStatement, DiagnosticAttribute,
        DiagnosticDirective, DiscardStatement, ElseClause, ElseIfClause, EnableDirective,
        Expression, ExpressionNode, ForStatement, FormalParameter, FromIn, Function, FunctionCall,
        FunctionCallStatement, GlobalDeclaration, GlobalDeclarationNode, GlobalDirective, Ident,
        IfClause, IfStatement, Import, ImportContent, ImportItem, ImportStatement,
        IncrementStatement, Indent, IndexingExpression, InterpolateAttribute, LiteralExpression,
        LoopStatement, ModulePath, ModulePathParseError, NamedComponentExpression,
        ParenthesizedExpression, PathOrigin, RequiresDirective, ReturnStatement, Span, Spanned,
        Statement, StatementNode, Struct, StructMember, StructMemberNode, SwitchClause,
        SwitchStatement, SyntaxNode, TemplateArg, TemplateArgs, TranslationUnit, TypeAlias,
        TypeExpression, UnaryExpression, WhileStatement, WorkgroupSizeAttribute, remove_voids,
    };
}

mod of_wgsl_parse {
    pub use wgsl_parse::lexer::recognize_template_list;
    pub use wgsl_parse::parser::recognize_template_list as recognize_template_list_of_tokens;
    pub use wgsl_parse::{
        Error, ErrorKind, ErrorWithSource, FromText, Lexer, Token, TokenIterator, TokenKinds,
        Unprintable, WithSource, check_unit, guard_templates, parse_str, syntax,
    };
}

mod of_wesl_cond {
    pub use wesl_cond::{CondCompError, Feature, Features, Visit, VisitEach, VisitEachMut, run};
}

mod of_wesl_link {
    pub use wesl_link::{
        BasicSourceMap, CacheMangler, EscapeMangler, ImportError, Linking, Mangler, NoMangler,
        NoResolver, NoSourceMap, Preprocessor, Resolutions, ResolveError, ResolveFn, Resolver,
        Router, SourceMap, SourceMapper, SyntaxUtil, ValidateError, VirtualResolver, names_clash,
        resolve_eager, resolve_lazy, retarget_idents, unclear_name, validate_wesl,
    };
}

mod of_wgsl_value {
    pub use wgsl_value::{
        ArrayInstance, Instance, Memory, PtrInstance, RefInstance, Scope, ScopeKind,
        StructInstance, VecInstance, array, bool, call_binary_op, call_unary_op, i32, op_add,
        op_and, op_bitand, op_bitnot, op_bitor, op_bitxor, op_div, op_eq, op_ge, op_gt, op_le,
        op_lt, op_mul, op_ne, op_neg, op_not, op_or, op_rem, op_shl, op_shr, op_sub, struct_ctor,
        u32, vec,
    };
}

mod of_wgsl_eval {
    pub use wgsl_context::{Context, EvalError, Fault, Inputs, Start};
}

mod of_wgsl_lower {
    pub use wgsl_lower::{Refused, lower};
    pub use wgsl_to_expr::{instance_to_expr, literal_to_expr, type_to_expr};
}

mod of_weslc {
    pub use weslc_bundle::{
        BasicSourceMap, Binding, Mode, Options, RunResult, compile, eval, link, precompile, run,
        serve_bundle,
    };
    pub use weslc_workspace::Workspace;
}
