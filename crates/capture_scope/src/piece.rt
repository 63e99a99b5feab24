// Pieces, put together from the last to the first.
ghost use Rattle.std.specs.Prelude.{◌≡◌, ◌∷◌, IfOk};
ghost use Rattle.std.specs.Option.{option_map};
ghost use Rattle.closure_convert.specs.Scope.{alone};
ghost use Rattle.closure_convert.specs.Capture.{add_run};
ghost use Rattle.capture_scope.specs.Found.{piece_of, pieces_back, joined_run};

use mlc_base::memory::NoMemory;

/// What a closure is made of: variables one by one, and runs of what the function around captured.
#[derive(Clone, Copy)]
pub enum Piece {
    Alone(usize),
    Those { from: usize, count: usize },
}

/// A run that starts just behind a place, with that place.
fn joined(piece: Piece, place: usize) -> Result<Option<Piece>, NoMemory>
    ensures { IfOk result (λ joined. option_map piece_of joined ≡ joined_run place (piece_of piece)) }
{
    match piece {
        Piece::Alone(_) => Ok(None),
        Piece::Those { from, count } => if place.checked_add(1) == Some(from) {
            match count.checked_add(1) {
                Some(count) => Ok(Some(Piece::Those { from: place, count })),
                None => Err(NoMemory),
            }
        } else {
            Ok(None)
        },
    }
}

/// A variable in front of pieces, which stand the last first.
pub fn push_alone(pieces: &mut Vec<Piece>, variable: usize) -> Result<(), NoMemory>
    ensures { IfOk result (λ _. pieces_back pieces.new.items ≡ alone variable ∷ pieces_back pieces.old.items) }
{
    pieces.push(Piece::Alone(variable))?;
    Ok(())
}

/// A place of what was captured in front of pieces, which stand the last first: with a run that starts just behind it.
pub fn push_place(pieces: &mut Vec<Piece>, place: usize) -> Result<(), NoMemory>
    ensures { IfOk result (λ _. pieces_back pieces.new.items ≡ add_run place (pieces_back pieces.old.items)) }
{
    match pieces.pop() {
        None => {
            pieces.push(Piece::Those {
                from: place,
                count: 1,
            })?;
        }
        Some(last) => match joined(last, place)? {
            Some(run) => pieces.push(run)?,
            None => {
                pieces.push(last)?;
                pieces.push(Piece::Those {
                    from: place,
                    count: 1,
                })?;
            }
        },
    }
    Ok(())
}
