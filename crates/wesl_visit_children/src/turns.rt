//! A closure that is called at values in turn, up to its first refusal: what visits of syntax trees say of their closures.
