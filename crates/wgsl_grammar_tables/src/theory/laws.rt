//! Laws of any listed tables.
