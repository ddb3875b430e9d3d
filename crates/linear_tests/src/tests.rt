// The solver against trying all assignments, at its largest size, and at each refusal.
use crate::plain::{Answer, Random, solvable, solved};
use field::modulus::{prime_13, prime_65537};
use field::residue::Residue;
use linear::system::{Refusal, System};
use std::test::Fail;

// Rows modulo 13 with many zeros, and now and then a row twice, so that all ranks come up.
fn some_rows(random: &mut Random) -> [[u64; 65]; 4] {
    let mut rows = [[0u64; 65]; 4];
    for row in rows.iter_mut() {
        for cell in row[..4].iter_mut() {
            if random.below(2) == 0 {
                *cell = random.below(13);
            }
        }
        row[64] = random.below(13);
    }
    if random.below(3) == 0 {
        let mut copy = rows[0];
        copy[64] = random.below(13);
        rows[1] = copy;
    }
    rows
}

#[test]
fn all_shapes(rt: HostRuntime) -> Result<(), Fail> {
    let mut random = Random::new(2024);
    let mut with = 0u32;
    let mut without = 0u32;
    for count in 0..5usize {
        for unknowns in 0..5usize {
            for _ in 0..20u32 {
                let all = some_rows(&mut random);
                let rows = &all[..count];
                match solved(prime_13(), rows, unknowns) {
                    Answer::Solution => with = with.wrapping_add(1),
                    Answer::NoSolution => {
                        assert!(rt; !solvable(rows, unknowns));
                        without = without.wrapping_add(1);
                    }
                    Answer::WrongSolution => return Err(Fail::new("wrong solution")),
                    Answer::Refused => return Err(Fail::new("refused")),
                }
            }
        }
    }
    assert!(rt; with > 100 && without > 100);
    Ok(())
}

fn dense_rows(random: &mut Random) -> [[u64; 65]; 64] {
    let mut rows = [[0u64; 65]; 64];
    for cell in rows.iter_mut().flatten() {
        *cell = random.below(65537);
    }
    rows
}

#[test]
fn largest(rt: HostRuntime) {
    let mut random = Random::new(64);
    let rows = dense_rows(&mut random);
    assert_eq!(rt; solved(prime_65537(), &rows, 64), Answer::Solution);
}

// The last row has the coefficients of the first and another right side.
#[test]
fn largest_without_solution(rt: HostRuntime) {
    let mut random = Random::new(65);
    let mut rows = dense_rows(&mut random);
    let mut last = rows[0];
    last[64] = (last[64] % 65537 + 1) % 65537;
    rows[63] = last;
    assert_eq!(rt; solved(prime_65537(), &rows, 64), Answer::NoSolution);
}

#[test]
fn refusals(rt: HostRuntime) -> Result<(), Fail> {
    let zero = Residue::new(prime_13(), 0);
    assert!(rt; System::new(prime_13(), 65).is_none());
    let Some(mut system) = System::new(prime_13(), 2) else {
        return Err(Fail::new("refused"));
    };
    assert_eq!(rt; system.push(&[zero; 3], zero), Err(Refusal::Length));
    assert_eq!(rt; system.push(&[zero; 1], zero), Err(Refusal::Length));
    for _ in 0..64u32 {
        assert_eq!(rt; system.push(&[zero; 2], zero), Ok(()));
    }
    assert_eq!(rt; system.push(&[zero; 2], zero), Err(Refusal::Full));
    assert!(rt; system.solve().is_some());
    Ok(())
}
