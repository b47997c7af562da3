// Buffers for the lists into which a file is read, long enough for any file of its length.
use diagram::conditions::{Before, Condition};
use diagram::nodes::Node;
use faults::Fault;
use model::load::load;
use model::model::Model;
use model::model::check::check;
use model::model::held::Held;
use model_file::draft::Draft;
use model_file::lists::Lists;
use std::alloc::{AllocError, Global};

#[derive(Drop)]
pub struct Buffers {
    rewards: Vec<i64>,
    chances: Vec<u16>,
    reward_nodes: Vec<Node>,
    chance_nodes: Vec<Node>,
    roots: Vec<u32>,
}

impl Buffers {
    pub fn for_file(heap: Global, length: usize) -> Result<Buffers, AllocError> {
        let blank = Node {
            condition: Condition::Before(Before(0)),
            one: 0,
            zero: 0,
        };
        Ok(Buffers {
            rewards: vec![in heap; 0i64; length / 8]?,
            chances: vec![in heap; 0u16; length / 2]?,
            reward_nodes: vec![in heap; blank; length / 9]?,
            chance_nodes: vec![in heap; blank; length / 9]?,
            roots: vec![in heap; 0u32; length / 4]?,
        })
    }

    // The model of a file.
    pub fn load<'a>(&'a mut self, file: &[u8]) -> Result<Model<'a>, Fault> {
        let draft = self.read(file)?;
        let lists = Held {
            rewards: &self.rewards,
            chances: &self.chances,
            reward_nodes: &self.reward_nodes,
            chance_nodes: &self.chance_nodes,
            roots: &self.roots,
        };
        let mut model = Model::blank();
        check(draft, lists, &mut model)?;
        Ok(model)
    }

    fn read(&mut self, file: &[u8]) -> Result<Draft, Fault> {
        let mut lists = Lists {
            rewards: &mut self.rewards,
            chances: &mut self.chances,
            reward_nodes: &mut self.reward_nodes,
            chance_nodes: &mut self.chance_nodes,
            roots: &mut self.roots,
        };
        load(file, &mut lists)
    }
}
