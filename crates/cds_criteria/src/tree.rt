//! The parts of search criteria: conditions joined by `and`, and those joined by `or`.

ghost use Rattle.std.specs.Prelude.{◌≡◌, IfOk};
ghost use Rattle.cds_criteria.specs.Criteria.{First, Or, Single, And, Compare, Exists, Group};
ghost use Rattle.cds_criteria.specs.Reading.{with_all, with_factor};
ghost use Rattle.cds_criteria.specs.Meaning.{any_met, all_met, factor_met};

use crate::meaning::{compares, is_there, same_truth};
use crate::{Operator, Property};
use cds_base::{Bytes, Mem};
use cds_object::Row;
use std::alloc::Global;
use std::marker::Model;

/// Conditions joined by `and`, joined by `or`. Contracts see what they mean.
#[derive(Drop)]
#[cycle(criteria)]
pub(crate) struct Disjunction {
    node: OrNode,
}

#[derive(Drop)]
#[cycle(criteria)]
enum OrNode {
    First(Conjunction),
    Or(Box<Disjunction>, Conjunction),
}

impl Model for Disjunction {
    ghost use Rattle.cds_criteria.specs.Criteria.{AnyOf};
    ghost use Rattle.cds_criteria.specs.CriteriaCode.{any_code};

    ghost Value = { AnyOf };

    ghost coded = { any_code };

    ghost use Rattle.cds_criteria.specs.Parts.{any_of};

    ghost view = { λ a. any_of a.node };

    ghost use Rattle.cds_criteria.specs.Weight.{any_weight};

    ghost size = { any_weight };

    ghost use Rattle.cds_criteria.specs.PartsFall.{any_falls};

    ghost size_decreases = { λ a h. any_falls a.node };
}

/// Conditions joined by `and`. Contracts see what they mean.
#[derive(Drop)]
#[cycle(criteria)]
pub(crate) struct Conjunction {
    node: AndNode,
}

#[derive(Drop)]
#[cycle(criteria)]
enum AndNode {
    Single(Condition),
    And(Box<Conjunction>, Condition),
}

impl Model for Conjunction {
    ghost use Rattle.cds_criteria.specs.Criteria.{AllOf};
    ghost use Rattle.cds_criteria.specs.CriteriaCode.{all_code};

    ghost Value = { AllOf };

    ghost coded = { all_code };

    ghost use Rattle.cds_criteria.specs.Parts.{all_of};

    ghost view = { λ a. all_of a.node };

    ghost use Rattle.cds_criteria.specs.Weight.{all_weight};

    ghost size = { all_weight };

    ghost use Rattle.cds_criteria.specs.PartsFall.{all_falls};

    ghost size_decreases = { λ a h. all_falls a.node };
}

/// A comparison, a question for existence, or criteria in parentheses. Contracts see what it means.
#[derive(Drop)]
#[cycle(criteria)]
pub(crate) struct Condition {
    node: ConditionNode,
}

#[derive(Drop)]
#[cycle(criteria)]
enum ConditionNode {
    Compare(Property, Operator, Bytes),
    Exists(Property, bool),
    Group(Box<Disjunction>),
}

impl Model for Condition {
    ghost use Rattle.cds_criteria.specs.Criteria.{Factor};
    ghost use Rattle.cds_criteria.specs.CriteriaCode.{factor_code};

    ghost Value = { Factor };

    ghost coded = { factor_code };

    ghost use Rattle.cds_criteria.specs.Parts.{factor_of};

    ghost view = { λ a. factor_of a.node };

    ghost use Rattle.cds_criteria.specs.Weight.{factor_weight};

    ghost size = { factor_weight };

    ghost use Rattle.cds_criteria.specs.PartsFall.{factor_falls};

    ghost size_decreases = { λ a h. factor_falls a.node };
}

impl Condition {
    /// Returns whether a row meets it.
    #[cycle(meets)]
    pub(crate) fn meets(&self, row: &Row) -> bool
        ensures { result ≡ factor_met self.now row.now }
    {
        match &self.node {
            ConditionNode::Compare(property, operator, value) => {
                compares(*property, *operator, value.as_slice(), row)
            }
            ConditionNode::Exists(property, there) => same_truth(*there, is_there(*property, row)),
            ConditionNode::Group(any) => any.meets(row),
        }
    }

    /// Makes a comparison.
    pub(crate) fn compare(property: Property, operator: Operator, value: Bytes) -> Self
        ensures { result ≡ Compare property operator value }
    {
        Condition {
            node: ConditionNode::Compare(property, operator, value),
        }
    }

    /// Makes a question for existence.
    pub(crate) fn exists(property: Property, there: bool) -> Self
        ensures { result ≡ Exists property there }
    {
        Condition {
            node: ConditionNode::Exists(property, there),
        }
    }

    /// Puts criteria in parentheses.
    pub(crate) fn group(alloc: Global, any: Disjunction) -> Result<Self, Mem>
        ensures { IfOk result (λ factor. factor ≡ Group any) }
    {
        let any = Box::new(alloc, any)?;
        Ok(Condition {
            node: ConditionNode::Group(any),
        })
    }
}

impl Conjunction {
    /// Returns whether a row meets all of them.
    #[cycle(meets)]
    pub(crate) fn meets(&self, row: &Row) -> bool
        ensures { result ≡ all_met self.now row.now }
    {
        match &self.node {
            AndNode::Single(condition) => condition.meets(row),
            AndNode::And(all, condition) => all.meets(row) && condition.meets(row),
        }
    }

    /// Adds a condition after those before it.
    pub(crate) fn with(
        alloc: Global,
        before: Option<Conjunction>,
        condition: Condition,
    ) -> Result<Self, Mem>
        ensures { IfOk result (λ all. all ≡ with_factor before condition) }
    {
        match before {
            None => Ok(Conjunction {
                node: AndNode::Single(condition),
            }),
            Some(before) => {
                let before = Box::new(alloc, before)?;
                Ok(Conjunction {
                    node: AndNode::And(before, condition),
                })
            }
        }
    }
}

impl Disjunction {
    /// Returns whether a row meets one of them.
    #[cycle(meets)]
    pub(crate) fn meets(&self, row: &Row) -> bool
        ensures { result ≡ any_met self.now row.now }
    {
        match &self.node {
            OrNode::First(all) => all.meets(row),
            OrNode::Or(any, all) => any.meets(row) || all.meets(row),
        }
    }

    /// Adds conditions joined by `and` after those before them.
    pub(crate) fn with(
        alloc: Global,
        before: Option<Disjunction>,
        last: Conjunction,
    ) -> Result<Self, Mem>
        ensures { IfOk result (λ any. any ≡ with_all before last) }
    {
        match before {
            None => Ok(Disjunction {
                node: OrNode::First(last),
            }),
            Some(before) => {
                let before = Box::new(alloc, before)?;
                Ok(Disjunction {
                    node: OrNode::Or(before, last),
                })
            }
        }
    }
}
