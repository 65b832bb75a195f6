//! One of the two copies of the tree (left-right: Ramalhete and Correia 2013), with the arcs that it is the version of. It takes
//! in an arc by merging over it, which never fails and takes no memory.
ghost use Rattle.std.specs.Prelude.{◌≡◌, []};
ghost use Rattle.pit_model.specs.Tree.{opening};
ghost use Rattle.pit_model.specs.Version.{IsVersion};
ghost use Rattle.versions.specs.Published.{copied, taken_in};

use crate::list_id::ListId;
use crate::list_word::ListWord;
use crate::prefix::Prefix;
use crate::taken::{Addition, TakenIn};
use left_right::Absorb;
use norm_tree::NormTree;
use std::alloc::{AllocError, Global};
use std::marker::Model;
use std::sync::Arc;

/// To a contract it is the instance, the tree and the arcs.
#[derive(Drop)]
pub struct TreeCopy<V: ListId> {
    tree: NormTree,
    list_word: Arc<ListWord<V>, Global>,
    arcs: TakenIn<V>,
}

impl<V: ListId> Model for TreeCopy<V> {
    ghost use Rattle.std.specs.Prelude.{◌≡◌};
    ghost use Rattle.pit_model.specs.Version.{IsVersion};
    ghost use Rattle.versions.specs.Published.{Copied, copied};

    ghost Value = { Copied };

    ghost view = { λ c. copied c.tree c.arcs };

    ghost invariant = { λ c. (c.tree.mine ≡ V.mine) × IsVersion V.mine c.tree.tree c.arcs };
}

impl<V: ListId> TreeCopy<V> {
    /// The opening tree, before any arc.
    pub fn new(tree: NormTree, list_word: Arc<ListWord<V>, Global>, list: Prefix<V>) -> TreeCopy<V>
        requires mine { tree.mine ≡ V.mine }
        requires opening { tree.tree ≡ opening tree.mine }
        requires empty { list ≡ [] }
        ensures { result ≡ copied tree [] }
    {
        TreeCopy {
            tree,
            list_word,
            arcs: TakenIn::new(list),
        }
    }

    /// The tree.
    pub fn tree(&self) -> &NormTree
        ensures same { result.now ≡ record { mine = self.now.mine; tree = self.now.tree } }
        ensures mine { self.now.mine ≡ V.mine }
    {
        let _ = &self.arcs;
        &self.tree
    }

    /// The arcs that were taken in.
    pub fn arcs(&self) -> &TakenIn<V>
        ensures same { result.now ≡ self.now.arcs }
        ensures version { IsVersion V.mine self.now.tree self.now.arcs }
    {
        let _ = &self.tree;
        &self.arcs
    }

    /// The tree, for good.
    pub fn into_tree(self) -> NormTree
        ensures { result ≡ record { mine = self.mine; tree = self.tree } }
    {
        let TreeCopy {
            tree,
            list_word: _,
            arcs: _,
        } = self;
        tree
    }
}

impl<V: ListId> Absorb<Addition<V>> for TreeCopy<V> {
    type State = TreeCopy<V>;

    ghost state = { λ c. c };

    ghost applied = { taken_in };

    ghost never_fails = { Unit {0} };

    fn absorb_first(
        &mut self,
        operation: &Addition<V>,
        _other: &TreeCopy<V>,
    ) -> Result<(), AllocError> {
        if self.arcs.are(operation.before()) && self.tree.try_merge(operation.arc()) {
            self.arcs.grow(&self.list_word, operation);
        }
        Ok(())
    }
}
