//! The types of operations.

use crate::types::Type;
use wgsl_words::BinaryOperator;

/// The type of a product.
fn product(left: Type, right: Type) -> Type {
    match (left, right) {
        (Type::Matrix { columns: _, rows }, Type::Matrix { columns, rows: _ }) => Type::Matrix {
            columns,
            rows,
        },
        (Type::Matrix { columns: _, rows }, Type::Vector(_)) => Type::Vector(rows),
        (Type::Vector(_), Type::Matrix { columns, rows: _ }) => Type::Vector(columns),
        (Type::Unknown, _) | (_, Type::Unknown) => Type::Unknown,
        _ => wider(left, right),
    }
}

fn is_vector(ty: Type) -> bool {
    matches!(ty, Type::Vector(_))
}

fn is_matrix(ty: Type) -> bool {
    matches!(ty, Type::Matrix { .. })
}

/// The type of an operation by components: that of the operand with more of them.
fn wider(left: Type, right: Type) -> Type {
    if is_vector(left) || (is_matrix(left) && !is_vector(right)) {
        left
    } else if is_vector(right) || is_matrix(right) {
        right
    } else if left == Type::Scalar && right == Type::Scalar {
        Type::Scalar
    } else {
        Type::Unknown
    }
}

/// The type of an operation with two operands.
pub fn binary_type(operator: BinaryOperator, left: Type, right: Type) -> Type {
    match operator {
        BinaryOperator::ShortCircuitOr | BinaryOperator::ShortCircuitAnd => Type::Scalar,
        BinaryOperator::ShiftLeft | BinaryOperator::ShiftRight => left,
        BinaryOperator::Multiplication => product(left, right),
        _ => wider(left, right),
    }
}

fn is_scalar(ty: Type) -> bool {
    ty == Type::Scalar
}

/// Whether nothing is known of a type.
fn is_untold(ty: Type) -> bool {
    matches!(ty, Type::Unknown | Type::Parts)
}

/// Whether a product is defined.
fn is_product(left: Type, right: Type) -> bool {
    match (left, right) {
        (Type::Matrix { columns, rows: _ }, Type::Matrix { columns: _, rows }) => columns == rows,
        (Type::Matrix { columns, rows: _ }, Type::Vector(size)) => columns == size,
        (Type::Vector(size), Type::Matrix { columns: _, rows }) => size == rows,
        (Type::Matrix { .. }, Type::Scalar) | (Type::Scalar, Type::Matrix { .. }) => true,
        _ => is_by_components(left, right),
    }
}

/// Whether an operation by components is defined, of which one operand may be a scalar.
fn is_by_components(left: Type, right: Type) -> bool {
    (is_scalar(left) && is_vector(right))
        || (is_vector(left) && is_scalar(right))
        || (left == right && (is_scalar(left) || is_vector(left)))
}

/// Whether an operation is defined on operands of these types, as far as they are told.
pub fn is_defined(operator: BinaryOperator, left: Type, right: Type) -> bool {
    if is_untold(left) || is_untold(right) {
        return true;
    }
    match operator {
        BinaryOperator::ShortCircuitOr | BinaryOperator::ShortCircuitAnd => {
            is_scalar(left) && is_scalar(right)
        }
        BinaryOperator::Multiplication => is_product(left, right),
        BinaryOperator::Addition | BinaryOperator::Subtraction => {
            is_by_components(left, right) || (left == right && is_matrix(left))
        }
        BinaryOperator::Division | BinaryOperator::Remainder => is_by_components(left, right),
        _ => left == right && (is_scalar(left) || is_vector(left)),
    }
}
