//! The template with its holes, and the sizes of seven numbers worked out by hand.

use crate::checks::check_row;
use css_base::NoMemory;
use css_make::{make_text, shape};
use std::alloc::Global;

const TEMPLATE: &str = r#"#include <stdio.h>
#define NB @NB
#define BS @BS
#define V @V
#pragma css task input(a[BS][BS], b[BS][BS]) inout(c[BS][BS]) highpriority
void block(int *a, int *b, int *c) {
  int i, j, k;
  for (i = 0; i < BS; i++)
    for (j = 0; j < BS; j++)
      for (k = 0; k < BS; k++)
        c[i * BS + j] += a[i * BS + k] * b[k * BS + j];
}
int *A[NB][NB], *B[NB][NB], *C[NB][NB];
int *fresh(int v) {
  int i, *p = malloc(BS * BS * sizeof(int));
  for (i = 0; i < BS * BS; i++) p[i] = v;
  return p;
}
int main(void) {
  int i, j, k, s = 0;
  for (i = 0; i < NB; i++)
    for (j = 0; j < NB; j++) {
      if ((i + j) % 2 == 0) A[i][j] = fresh(V * (i + 1));
      B[i][j] = fresh(j + 1);
      C[i][j] = fresh(0);
    }
  #pragma css start
  for (i = 0; i < NB; i++)
    for (j = 0; j < NB; j++)
      for (k = 0; k < NB; k++)
        if (A[i][k]) block(A[i][k], B[k][j], C[i][j]);
  #pragma css finish
  for (i = 0; i < NB; i++)
    for (j = 0; j < NB; j++)
      for (k = 0; k < BS * BS; k++) s += C[i][j][k];
  printf("%d\n", s);
  return 0;
}
"#;

/// A text with a value in place of the first hole of this name.
fn filled(alloc: Global, text: &str, hole: &str, value: u32) -> Result<String, NoMemory> {
    match text.split_once(hole) {
        Some((before, after)) => Ok(format!(in alloc; "{before}{value}{after}")?),
        None => Ok(String::from_str(alloc, text)?),
    }
}

/// A number with its sizes.
type Row = (u32, u32, u32, u32);

static ROWS: [Row; 7] = [
    (0, 4, 4, 1),
    (12, 16, 4, 1),
    (39, 4, 16, 1),
    (47, 12, 16, 1),
    (103, 16, 32, 1),
    (104, 4, 4, 2),
    (9999, 6, 8, 97),
];

fn has_sizes(row: &Row) -> bool {
    let (number, nb, bs, v) = row;
    let made = shape(*number);
    made.nb == *nb && made.bs == *bs && made.v == *v
}

fn has_text(alloc: Global, row: &Row) -> Result<bool, NoMemory> {
    let (number, nb, bs, v) = row;
    if *number > 9999 {
        return Ok(false);
    }
    let text = filled(alloc, TEMPLATE, "@NB", *nb)?;
    let text = filled(alloc, text.as_str(), "@BS", *bs)?;
    let text = filled(alloc, text.as_str(), "@V", *v)?;
    Ok(make_text(alloc, *number)?.as_slice() == text.as_bytes())
}

#[test]
fn numbers_have_their_texts(rt: HostRuntime) -> Result<(), NoMemory> {
    for (number, row) in ROWS.iter().enumerate() {
        check_row(&rt, number, has_sizes(row) && has_text(rt.alloc(), row)?);
    }
    Ok(())
}
