//! The instance whose least pit is searched for the pit of a mine: the rest outside the fixed blocks, and for the greatest pit that
//! rest's dual; and the lift of its pit to that of the mine.
ghost use Rattle.std.specs.Prelude.{◌≡◌, IfOk, IfErr};
ghost use Rattle.faults.specs.Refused.{no_memory};
ghost use Rattle.pit_model.specs.declared.direction.Direction.{Direction as AnyDirection};
ghost use Rattle.pit_model.specs.declared.direction.Direction.TheVariants.{Least};
ghost use Rattle.pit_model.specs.Pit.{ListsPit, no_blocks_fixed};
ghost use Rattle.pit_model.specs.Fixed.{fixed_of, graph_of_mine};
ghost use Rattle.pit_model.specs.Mine.{Instance as AnyInstance};
ghost use Rattle.mine_graph.specs.FixedBlocks.{IsFixedOf};
ghost use Rattle.pit_search.specs.Searched.{IsFound, IsOpenPart, IsSearch, IsSearchOf, IsToward, ListsRestPit, own_values};

use crate::dual::{dual_instance, outside};
use crate::found_pit::FoundPit;
use faults::Fault;
use merging::{ReducedMine, join_pit};
use mine_graph::{Fixed, Instance, Values};
use pit_model::Direction;
use std::alloc::Global;

/// The rest of a mine outside its fixed blocks; where some are fixed, with the numbers of its blocks in the mine, rising, and with the
/// values of the mine.
#[derive(Drop)]
struct OpenPart {
    blocks: Option<Vec<u32>>,
    values: Option<Values>,
    rest: Instance,
}

/// Returns the reduced mine, and releases the graph. Error: `NoMemory`.
fn open_part(alloc: Global, mine: Instance, fixed: &Fixed) -> Result<OpenPart, Fault>
    requires { IsFixedOf (graph_of_mine mine) fixed.now }
    ensures open { IfOk result (λ p. IsOpenPart mine fixed.now p.blocks p.rest) }
    ensures values { IfOk result (λ p. own_values p.values p.rest ≡ mine.values) }
    ensures refused { IfErr result (λ e. e ≡ no_memory) }
{
    if fixed.is_empty() {
        return Ok(OpenPart {
            blocks: None,
            values: None,
            rest: mine,
        });
    }
    let ReducedMine { blocks, mine: rest } = ReducedMine::of(alloc, &mine, fixed)?;
    Ok(OpenPart {
        blocks: Some(blocks),
        values: Some(mine.into_values()),
        rest,
    })
}

/// Returns the instance that is searched for the pit of a reduced mine toward a direction: itself, or its dual; and the values of
/// the mine, if the instance has others. The graph of the reduced mine is released if it is transposed. Error: `NoMemory`.
fn toward(
    alloc: Global,
    direction: Direction,
    rest: Instance,
    values: Option<Values>,
) -> Result<(Instance, Option<Values>), Fault>
    ensures toward { IfOk result (λ r. IsToward direction rest r.0) }
    ensures values { IfOk result (λ r. own_values r.1 r.0 ≡ own_values values rest) }
    ensures refused { IfErr result (λ e. e ≡ no_memory) }
{
    match direction {
        Direction::Least => Ok((rest, values)),
        Direction::Greatest => {
            let other = dual_instance(alloc, &rest)?;
            other.law();
            match values {
                Some(values) => Ok((other, Some(values))),
                None => Ok((other, Some(rest.into_values()))),
            }
        }
    }
}

/// Returns the pit of a reduced mine toward a direction, by the minimal pit of the instance that is searched for it. Error:
/// `NoMemory`.
fn pit_toward(
    alloc: Global,
    direction: Direction,
    instance: &Instance,
    found: Vec<u32>,
) -> Result<Vec<u32>, Fault>
    requires { ListsPit Least instance.now no_blocks_fixed found.items }
    ensures shown { IfOk result (λ pit. (rest : AnyInstance) → IsToward direction rest instance.now → ListsPit direction rest no_blocks_fixed pit.items) }
    ensures refused { IfErr result (λ e. e ≡ no_memory) }
{
    match direction {
        Direction::Least => Ok(found),
        Direction::Greatest => Ok(outside(alloc, instance.graph().n(), &found)?),
    }
}

/// Returns the pit of a mine of n blocks, by that of its reduced mine: joined with the forced closure if blocks are fixed. Error:
/// `NoMemory`.
fn whole_pit(
    alloc: Global,
    n: u32,
    fixed: &Fixed,
    blocks: Option<Vec<u32>>,
    pit: Vec<u32>,
) -> Result<Vec<u32>, Fault>
    requires { ListsRestPit n fixed.now blocks pit.items }
    ensures shown { IfOk result (λ list. (direction : AnyDirection) (mine rest : AnyInstance) → n ≡ mine.blocks → IsOpenPart mine fixed.now blocks rest
        → ListsPit direction rest no_blocks_fixed pit.items → ListsPit direction mine (fixed_of fixed.now.lists) list.items) }
    ensures refused { IfErr result (λ e. e ≡ no_memory) }
{
    match blocks {
        None => Ok(pit),
        Some(blocks) => join_pit(alloc, n, fixed, &blocks, &pit),
    }
}

/// The values of the mine: these, or those of the instance that has the same.
fn mine_values(values: Option<Values>, instance: Instance) -> Values
    ensures { result ≡ own_values values instance }
{
    match values {
        Some(values) => values,
        None => instance.into_values(),
    }
}

/// What is searched for the pit of a mine toward a direction.
#[derive(Drop)]
pub struct Searched {
    /// Its least pit is searched.
    pub instance: Instance,
    direction: Direction,
    /// How many blocks the mine has.
    n: u32,
    /// The numbers in the mine of the blocks that are not fixed, rising, where some are.
    blocks: Option<Vec<u32>>,
    /// The values of the mine, where the instance has others.
    values: Option<Values>,
}

impl Searched {
    /// Returns what is searched for the pit of a mine with fixed blocks. The graph of the mine is released if another is made of
    /// it. Error: `NoMemory`.
    pub fn of(
        alloc: Global,
        mine: Instance,
        fixed: &Fixed,
        direction: Direction,
    ) -> Result<Searched, Fault>
        requires { IsFixedOf (graph_of_mine mine) fixed.now }
        ensures of { IfOk result (IsSearchOf direction mine fixed.now) }
        ensures refused { IfErr result (λ e. e ≡ no_memory) }
    {
        let n = mine.graph().n();
        let OpenPart {
            blocks,
            values,
            rest,
        } = open_part(alloc, mine, fixed)?;
        let (instance, values) = toward(alloc, direction, rest, values)?;
        Ok(Searched {
            instance,
            direction,
            n,
            blocks,
            values,
        })
    }

    /// Returns the pit of the mine, by the minimal pit of the instance. Error: `NoMemory`.
    pub fn pit(self, alloc: Global, fixed: &Fixed, found: Vec<u32>) -> Result<FoundPit, Fault>
        requires search { IsSearch fixed.now self }
        requires shown { ListsPit Least self.instance no_blocks_fixed found.items }
        ensures found { IfOk result (λ pit. (direction : AnyDirection) (mine : AnyInstance) → IsSearchOf direction mine fixed.now self → IsFound direction mine (fixed_of fixed.now.lists) pit) }
        ensures refused { IfErr result (λ e. e ≡ no_memory) }
    {
        let Searched {
            instance,
            direction,
            n,
            blocks,
            values,
        } = self;
        let pit = pit_toward(alloc, direction, &instance, found)?;
        let blocks = whole_pit(alloc, n, fixed, blocks, pit)?;
        let worth = mine_values(values, instance).worth(&blocks);
        Ok(FoundPit { blocks, worth })
    }
}
