//! What is set up for a run.

use crate::running::put_run;
use crate::stop::Stop;
use crate::words::{run_of, value_of};
use je_class::ClassFile;
use je_heap::{Classes, Fields, Heap, Reply, allocate, make_array, new_instance};
use je_least::Shapes;
use je_value::{Program, Value, read_field_type};
use je_vm::start_of;
use sqlite_items::Items;
use std::alloc::Global;

/// The heap with which each run begins, the class file, the method, and what the next run is given.
#[derive(Debug, Drop)]
pub struct Setup {
    pub heap: Heap,
    pub class: Option<ClassFile>,
    pub program: Option<Program>,
    /// The shapes of the method, where its runs are watched.
    pub shapes: Option<Shapes>,
    pub arguments: Vec<Value>,
    pub replies: Vec<Reply>,
}

/// A heap without objects.
fn empty_heap(alloc: Global) -> Heap {
    Heap::new(Vec::new(alloc), Fields::new(alloc))
}

impl Setup {
    /// Nothing is set up.
    pub fn new(alloc: Global) -> Setup {
        Setup {
            heap: empty_heap(alloc),
            class: None,
            program: None,
            shapes: None,
            arguments: Vec::new(alloc),
            replies: Vec::new(alloc),
        }
    }

    /// The heap, which is taken out.
    fn taken_heap(&mut self, alloc: Global) -> Heap {
        std::mem::replace(&mut self.heap, empty_heap(alloc))
    }

    /// Takes another class file, and a heap without objects.
    pub fn take_class(&mut self, alloc: Global, class: ClassFile) {
        self.heap = empty_heap(alloc);
        self.class = Some(class);
    }

    /// Adds an object of a class to the heap.
    pub fn add_object(&mut self, alloc: Global, class: &str) -> Result<(), Stop> {
        let object = new_instance(alloc, run_of(alloc, class)?);
        self.heap = allocate(object, self.taken_heap(alloc))?;
        Ok(())
    }

    /// Adds an array of a type and a length to the heap.
    pub fn add_array(&mut self, alloc: Global, of: &str, length: &str) -> Result<(), Stop> {
        let Ok(length) = length.parse::<u16>() else {
            return Err(Stop::NotRead);
        };
        let Some(of) = read_field_type(alloc, of.as_bytes())? else {
            return Err(Stop::NotRead);
        };
        let sizes = [length as usize];
        let (_, heap) = make_array(alloc, &of, &sizes, self.taken_heap(alloc))?;
        self.heap = heap;
        Ok(())
    }

    /// Adds an argument.
    pub fn add_argument(&mut self, word: &str) -> Result<(), Stop> {
        match value_of(word) {
            Some(value) => Ok(self.arguments.push(value)?),
            None => Err(Stop::NotRead),
        }
    }

    /// Adds a reply, which comes before those that were added before.
    pub fn add_reply(&mut self, throws: bool, word: &str) -> Result<(), Stop> {
        match value_of(word) {
            Some(value) if throws => Ok(self.replies.push(Reply::Throws(value))?),
            Some(value) => Ok(self.replies.push(Reply::Gives(value))?),
            None => Err(Stop::NotRead),
        }
    }

    /// The lines of a run of the method.
    pub fn run(&mut self, alloc: Global, classes: &Classes, limit: u32) -> Result<String, Stop> {
        let arguments = std::mem::replace(&mut self.arguments, Vec::new(alloc));
        let mut replies = std::mem::replace(&mut self.replies, Vec::new(alloc));
        let Some(program) = &self.program else {
            return Err(Stop::NotRead);
        };
        let heap = self.heap.copy(alloc)?;
        let state = start_of(alloc, program, &arguments, heap, Items::new(alloc))?;
        let mut text = String::new(alloc);
        put_run(
            alloc,
            program,
            classes,
            limit,
            state,
            &self.shapes,
            &mut replies,
            &mut text,
        )?;
        Ok(text)
    }
}
