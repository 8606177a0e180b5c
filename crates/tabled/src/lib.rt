// What a text is loaded as: the program's tables and the choices as numbers. What each number is stands in specs/Tabled.antt.
#![tactic(auto)]

use tables::Program;

// The program, and the choices: how many they are.
// stays: no heap, fixed memory: the array, and how many places of it are used
#[derive(Clone, Copy)]
pub struct Loaded {
    pub program: Program,
    pub choices: [u32; Program::CHOICES],
    pub count: usize,
}
