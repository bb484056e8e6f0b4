//! Computations over memory with a limit of steps: what they are, and relations of two that going on keeps. No code.
#![tactic(auto)]
