//! The names of records.
use crate::raw::{
    ActionProfile, Calculation, Checksum, Conditional, CounterArray, ErrorNumber, Header,
    HeaderType, LearnList, NextTable, ParseState, Table, TypeField,
};
use name_index::Labelled;

impl<'a> Labelled for ActionProfile<'a> {
    ghost label = { λ x. x.name };

    fn name(&self) -> &str {
        self.name.as_str()
    }
}

impl<'a> Labelled for Calculation<'a> {
    ghost label = { λ x. x.name };

    fn name(&self) -> &str {
        self.name.as_str()
    }
}

impl<'a> Labelled for Checksum<'a> {
    ghost label = { λ x. x.name };

    fn name(&self) -> &str {
        self.name.as_str()
    }
}

impl<'a> Labelled for Conditional<'a> {
    ghost label = { λ x. x.name };

    fn name(&self) -> &str {
        self.name.as_str()
    }
}

impl<'a> Labelled for CounterArray<'a> {
    ghost label = { λ x. x.name };

    fn name(&self) -> &str {
        self.name.as_str()
    }
}

impl<'a> Labelled for ErrorNumber<'a> {
    ghost label = { λ x. x.name };

    fn name(&self) -> &str {
        self.name.as_str()
    }
}

impl<'a> Labelled for Header<'a> {
    ghost label = { λ x. x.name };

    fn name(&self) -> &str {
        self.name.as_str()
    }
}

impl<'a> Labelled for HeaderType<'a> {
    ghost label = { λ x. x.name };

    fn name(&self) -> &str {
        self.name.as_str()
    }
}

impl<'a> Labelled for LearnList<'a> {
    ghost label = { λ x. x.name };

    fn name(&self) -> &str {
        self.name.as_str()
    }
}

impl<'a> Labelled for ParseState<'a> {
    ghost label = { λ x. x.name };

    fn name(&self) -> &str {
        self.name.as_str()
    }
}

impl<'a> Labelled for Table<'a> {
    ghost label = { λ x. x.name };

    fn name(&self) -> &str {
        self.name.as_str()
    }
}

impl<'a> Labelled for TypeField<'a> {
    ghost label = { λ x. x.name };

    fn name(&self) -> &str {
        self.name.as_str()
    }
}

impl<'a> Labelled for NextTable<'a> {
    ghost label = { λ x. x.outcome };

    fn name(&self) -> &str {
        self.outcome.as_str()
    }
}
