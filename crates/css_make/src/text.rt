//! The generated program's text.
ghost use Rattle.std.specs.Prelude.{◌≡◌, ◌≤◌, IfOk};
ghost use Rattle.css_make.specs.Shape.{shape_of};
ghost use Rattle.css_make.specs.Template.{program_text};

use crate::numbers::shape;
use css_base::NoMemory;
use std::alloc::Global;

/// What stands behind the three sizes.
const PROGRAM: &str = r#"#pragma css task input(a[BS][BS], b[BS][BS]) inout(c[BS][BS]) highpriority
void block(int *a, int *b, int *c) {
  int i, j, k;
  for (i = 0; i < BS; i++)
    for (j = 0; j < BS; j++)
      for (k = 0; k < BS; k++)
        c[i * BS + j] += a[i * BS + k] * b[k * BS + j];
}
int *A[NB][NB], *B[NB][NB], *C[NB][NB];
int *fresh(int v) {
  int i, *p = malloc(BS * BS * sizeof(int));
  for (i = 0; i < BS * BS; i++) p[i] = v;
  return p;
}
int main(void) {
  int i, j, k, s = 0;
  for (i = 0; i < NB; i++)
    for (j = 0; j < NB; j++) {
      if ((i + j) % 2 == 0) A[i][j] = fresh(V * (i + 1));
      B[i][j] = fresh(j + 1);
      C[i][j] = fresh(0);
    }
  #pragma css start
  for (i = 0; i < NB; i++)
    for (j = 0; j < NB; j++)
      for (k = 0; k < NB; k++)
        if (A[i][k]) block(A[i][k], B[k][j], C[i][j]);
  #pragma css finish
  for (i = 0; i < NB; i++)
    for (j = 0; j < NB; j++)
      for (k = 0; k < BS * BS; k++) s += C[i][j][k];
  printf("%d\n", s);
  return 0;
}
"#;

/// The text of a number's program, with its sizes in decimal. The only error is want of memory.
pub fn make_text(alloc: Global, number: u32) -> Result<Vec<u8>, NoMemory>
    requires { number ≤ 9999 }
    ensures { IfOk result (λ text. text.items ≡ program_text (shape_of number)) }
{
    let sizes = shape(number);
    let (nb, bs, v) = (sizes.nb, sizes.bs, sizes.v);
    let text = format!(in alloc;
        "#include <stdio.h>\n#define NB {nb}\n#define BS {bs}\n#define V {v}\n{PROGRAM}"
    )?;
    Ok(text.into_bytes())
}
