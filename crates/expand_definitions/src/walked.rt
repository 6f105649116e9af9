// No code: that the naming pass as it walks bytes is the definition's walk over trees.
