//! The hints of a step, found by unit propagation over the few clauses that may give one.
use std::alloc::{AllocError, Global};

/// Literals that are taken for true: for each variable its value, if it has one, and the variables that have.
#[derive(Drop)]
pub(crate) struct Known {
    values: Vec<Option<bool>>,
    variables: Vec<usize>,
}

/// What a clause gives where the known literals are true.
#[derive(Clone, Copy, Drop)]
pub(crate) enum Given {
    /// Nothing: a literal is true, or two are open.
    Nothing,
    /// This literal.
    Unit(i32),
    /// Each literal is false.
    Conflict,
}

impl Known {
    /// Nothing is known of the variables up to `variables`.
    pub(crate) fn new(alloc: Global, variables: u32) -> Result<Known, AllocError> {
        Ok(Known {
            values: vec![in alloc; None; variables as usize + 1]?,
            variables: Vec::new(alloc),
        })
    }

    /// Forgets all.
    pub(crate) fn clear(&mut self) {
        for variable in &self.variables {
            if *variable < self.values.len() {
                self.values[*variable] = None;
            }
        }
        self.variables.clear();
    }

    /// Takes a literal for true.
    pub(crate) fn set(&mut self, literal: i32) -> Result<(), AllocError> {
        let variable = literal.unsigned_abs() as usize;
        if variable < self.values.len() {
            self.values[variable] = Some(literal > 0);
            self.variables.push(variable)?;
        }
        Ok(())
    }

    /// Whether the literal is true; None where it is open.
    fn value(&self, literal: i32) -> Option<bool> {
        let variable = literal.unsigned_abs() as usize;
        if variable < self.values.len() {
            match self.values[variable] {
                Some(value) => Some(value == (literal > 0)),
                None => None,
            }
        } else {
            None
        }
    }

    /// What a clause gives.
    pub(crate) fn given(&self, clause: &[i32]) -> Given {
        let mut open: Option<i32> = None;
        for literal in clause {
            match self.value(*literal) {
                Some(true) => return Given::Nothing,
                Some(false) => {}
                None => match open {
                    Some(_) => return Given::Nothing,
                    None => open = Some(*literal),
                },
            }
        }
        match open {
            Some(literal) => Given::Unit(literal),
            None => Given::Conflict,
        }
    }
}
