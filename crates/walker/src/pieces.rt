// No code: a combinator as the pieces between its calls, told on trees.
