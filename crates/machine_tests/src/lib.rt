// Tests of the way from SSA form to the image. A module's name begins with the crate that it tests.
#![tactic(auto)]

#[cfg(test)]
mod emit_code_tests;
#[cfg(test)]
mod emit_constants_tests;
#[cfg(test)]
mod emit_equality_tests;
#[cfg(test)]
mod emit_parts_tests;
#[cfg(test)]
mod emit_rows_tests;
#[cfg(test)]
mod machine_emit_blocks;
#[cfg(test)]
mod machine_emit_calls;
#[cfg(test)]
mod machine_emit_cells;
#[cfg(test)]
mod machine_emit_choices;
#[cfg(test)]
mod machine_emit_closures;
#[cfg(test)]
mod machine_emit_edges;
#[cfg(test)]
mod machine_emit_equality;
#[cfg(test)]
mod machine_emit_handlers;
#[cfg(test)]
mod machine_emit_large;
#[cfg(test)]
mod machine_emit_least;
#[cfg(test)]
mod machine_emit_moves;
#[cfg(test)]
mod machine_emit_packets;
#[cfg(test)]
mod machine_emit_programs;
#[cfg(test)]
mod machine_emit_run;
#[cfg(test)]
mod machine_emit_table;
#[cfg(test)]
mod machine_emit_tests;
#[cfg(test)]
mod machine_emit_texts;
#[cfg(test)]
mod ssa_pass_tests;
