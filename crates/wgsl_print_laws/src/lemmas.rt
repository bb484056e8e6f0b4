//! Lemmas of tokens that are written down: which characters spell a token, and what may stand behind it.
